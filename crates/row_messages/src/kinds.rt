//! Messages of a type: their fields are read, and what they say is written again.

ghost use Rattle.std.specs.Prelude.{◌≤◌, All, IsTrue, length};
ghost use Rattle.fin_fields.specs.Writing.{IsField};
ghost use Rattle.fin_fields.specs.Fields.{most_text_lines};
ghost use Rattle.ref_tables.specs.Seen.{few_decimals};

use crate::given::{fields_in, put_refusal, tables_in};
use corr_text::Text;
use fin_fields::Field;
use fin_layout::MtFault;
use ref_tables::RefTables;
use row_words::answer::Answer;
use row_words::stop::Stop;
use row_words::words::Words;
use std::alloc::Global;

/// A type of message.
pub trait Kind {
    /// Whether fields say a message of this type.
    fn check(alloc: Global, fields: &[Field], tables: &RefTables) -> Result<(), MtFault>
        requires { length fields.now ≤ most_text_lines };

    /// The lines of the message that fields say.
    fn rewrite(alloc: Global, fields: &[Field], tables: &RefTables) -> Result<Text, MtFault>
        requires few { length fields.now ≤ most_text_lines }
        requires fit { All IsField fields.now }
        requires decimals { IsTrue (few_decimals tables.now.ccys) };
}

/// Whether the fields say a message under the tables of a file. The tables are let go here: each way out of a function that
/// holds tables is dear to prove.
fn checked<K: Kind>(
    alloc: Global,
    file: &[u8],
    fields: &[Field],
) -> Result<Result<(), MtFault>, Stop>
    requires { length fields.now ≤ most_text_lines }
{
    let tables = tables_in(alloc, file)?;
    Ok(K::check(alloc, fields, &tables))
}

/// `NAME TABLES FIELDS`: `ok`, or the fault.
pub fn read<K: Kind>(words: &mut Words, answer: &mut Answer) -> Result<(), Stop> {
    let file = words.next()?;
    let fields = fields_in(answer.alloc(), words)?;
    match checked::<K>(answer.alloc(), file, fields.as_slice())? {
        Ok(()) => Ok(answer.word(b"ok")?),
        Err(fault) => put_refusal(&fault, answer),
    }
}

/// The lines of the message that the fields say under the tables of a file.
fn written<K: Kind>(
    alloc: Global,
    file: &[u8],
    fields: &[Field],
) -> Result<Result<Text, MtFault>, Stop>
    requires few { length fields.now ≤ most_text_lines }
    requires fit { All IsField fields.now }
{
    let tables = tables_in(alloc, file)?;
    Ok(K::rewrite(alloc, fields, &tables))
}

/// `NAME TABLES FIELDS`: the lines of the message that the fields say, or the fault.
pub fn rewrite<K: Kind>(words: &mut Words, answer: &mut Answer) -> Result<(), Stop> {
    let file = words.next()?;
    let fields = fields_in(answer.alloc(), words)?;
    match written::<K>(answer.alloc(), file, fields.as_slice())? {
        Ok(text) => Ok(answer.text(text.bytes())?),
        Err(fault) => put_refusal(&fault, answer),
    }
}
