//! Calls of mt202cov.

use crate::given::let_go;
use crate::kinds::{Kind, read, rewrite};
use corr_text::Text;
use fin_fields::Field;
use fin_layout::MtFault;
use mt202cov::{put_mt202cov, read_mt202cov};
use ref_tables::RefTables;
use row_words::answer::Answer;
use row_words::stop::Stop;
use row_words::words::Words;
use std::alloc::Global;

/// Makes a call, and answers whether one of these has that name.
pub fn call(name: &[u8], words: &mut Words, answer: &mut Answer) -> Result<bool, Stop> {
    match name {
        b"read_mt202cov" => read::<Cover>(words, answer)?,
        b"put_mt202cov" => rewrite::<Cover>(words, answer)?,
        _ => return Ok(false),
    }
    Ok(true)
}

enum Cover {}

impl Kind for Cover {
    fn check(alloc: Global, fields: &[Field], tables: &RefTables) -> Result<(), MtFault> {
        let_go(read_mt202cov(alloc, fields, tables)?);
        Ok(())
    }

    fn rewrite(alloc: Global, fields: &[Field], tables: &RefTables) -> Result<Text, MtFault> {
        let m = read_mt202cov(alloc, fields, tables)?;
        let text = put_mt202cov(alloc, &m);
        let_go(m);
        Ok(text?)
    }
}
