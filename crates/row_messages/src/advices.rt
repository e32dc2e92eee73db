//! Calls of mt9_advice.

use crate::given::let_go;
use crate::kinds::{Kind, read, rewrite};
use corr_text::Text;
use fin_fields::Field;
use fin_layout::MtFault;
use mt9_advice::{put_mt900, put_mt910, read_mt900, read_mt910};
use ref_tables::RefTables;
use row_words::answer::Answer;
use row_words::stop::Stop;
use row_words::words::Words;
use std::alloc::Global;

/// Makes a call, and answers whether one of these has that name.
pub fn call(name: &[u8], words: &mut Words, answer: &mut Answer) -> Result<bool, Stop> {
    match name {
        b"read_mt900" => read::<Debit>(words, answer)?,
        b"read_mt910" => read::<Credit>(words, answer)?,
        b"put_mt900" => rewrite::<Debit>(words, answer)?,
        b"put_mt910" => rewrite::<Credit>(words, answer)?,
        _ => return Ok(false),
    }
    Ok(true)
}

enum Debit {}

impl Kind for Debit {
    fn check(alloc: Global, fields: &[Field], tables: &RefTables) -> Result<(), MtFault> {
        let_go(read_mt900(alloc, fields, tables)?);
        Ok(())
    }

    fn rewrite(alloc: Global, fields: &[Field], tables: &RefTables) -> Result<Text, MtFault> {
        let m = read_mt900(alloc, fields, tables)?;
        let text = put_mt900(alloc, &m);
        let_go(m);
        Ok(text?)
    }
}

enum Credit {}

impl Kind for Credit {
    fn check(alloc: Global, fields: &[Field], tables: &RefTables) -> Result<(), MtFault> {
        let_go(read_mt910(alloc, fields, tables)?);
        Ok(())
    }

    fn rewrite(alloc: Global, fields: &[Field], tables: &RefTables) -> Result<Text, MtFault> {
        let m = read_mt910(alloc, fields, tables)?;
        let text = put_mt910(alloc, &m);
        let_go(m);
        Ok(text?)
    }
}
