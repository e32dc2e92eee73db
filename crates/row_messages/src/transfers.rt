//! Calls of mt103 and mt103_rules.

ghost use Rattle.std.specs.Prelude.{◌≤◌, length};
ghost use Rattle.fin_fields.specs.Fields.{most_text_lines};

use crate::given::{fields_in, let_go, put_fault, put_refusal, tables_in};
use crate::kinds::{Kind, read, rewrite};
use corr_ids::{Bic, read_bic};
use corr_text::{Fault, Text};
use fin_fields::Field;
use fin_layout::MtFault;
use mt103::{put_mt103, read_mt103};
use mt103_rules::first_rule;
use ref_tables::RefTables;
use row_words::answer::Answer;
use row_words::stop::Stop;
use row_words::words::Words;
use std::alloc::Global;

/// Makes a call, and answers whether one of these has that name.
pub fn call(name: &[u8], words: &mut Words, answer: &mut Answer) -> Result<bool, Stop> {
    match name {
        b"read_mt103" => read::<Transfer>(words, answer)?,
        b"put_mt103" => rewrite::<Transfer>(words, answer)?,
        b"first_rule" => rule(words, answer)?,
        _ => return Ok(false),
    }
    Ok(true)
}

enum Transfer {}

impl Kind for Transfer {
    fn check(alloc: Global, fields: &[Field], tables: &RefTables) -> Result<(), MtFault> {
        let_go(read_mt103(alloc, fields, tables)?);
        Ok(())
    }

    fn rewrite(alloc: Global, fields: &[Field], tables: &RefTables) -> Result<Text, MtFault> {
        let m = read_mt103(alloc, fields, tables)?;
        let text = put_mt103(alloc, &m);
        let_go(m);
        Ok(text?)
    }
}

/// The banks of a message.
#[derive(Clone, Copy)]
struct Banks {
    sender: Bic,
    receiver: Bic,
}

/// The next two words as BICs.
fn read_banks(words: &mut Words) -> Result<Banks, Stop> {
    let sender = read_bic(words.next()?).ok_or(Stop::Unreadable)?;
    let receiver = read_bic(words.next()?).ok_or(Stop::Unreadable)?;
    Ok(Banks { sender, receiver })
}

/// The first rule that the transfer of some fields breaks between these banks, under the tables of a file.
fn broken(
    alloc: Global,
    file: &[u8],
    banks: Banks,
    fields: &[Field],
) -> Result<Result<Option<Fault>, MtFault>, Stop>
    requires { length fields.now ≤ most_text_lines }
{
    let tables = tables_in(alloc, file)?;
    Ok(first_broken(alloc, fields, banks, &tables))
}

fn first_broken(
    alloc: Global,
    fields: &[Field],
    banks: Banks,
    tables: &RefTables,
) -> Result<Option<Fault>, MtFault>
    requires { length fields.now ≤ most_text_lines }
{
    let m = read_mt103(alloc, fields, tables)?;
    let fault = first_rule(&m, &banks.sender, &banks.receiver, tables);
    let_go(m);
    Ok(fault)
}

/// `first_rule TABLES SENDER RECEIVER FIELDS`: the first rule that the transfer breaks between these banks, or `none`.
fn rule(words: &mut Words, answer: &mut Answer) -> Result<(), Stop> {
    let file = words.next()?;
    let banks = read_banks(words)?;
    let fields = fields_in(answer.alloc(), words)?;
    match broken(answer.alloc(), file, banks, fields.as_slice())? {
        Ok(Some(fault)) => Ok(put_fault(&fault, answer)?),
        Ok(None) => Ok(answer.none()?),
        Err(fault) => put_refusal(&fault, answer),
    }
}
