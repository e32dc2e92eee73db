//! Calls of rows over fields, their contents and tables.
#![tactic(auto)]

mod charges;
mod contents;
mod fields;
mod layout;
mod lines;
mod named_tables;
mod parties;
mod party;
mod ssi;
mod tables;

use row_words::answer::Answer;
use row_words::stop::Stop;
use row_words::words::Words;

/// Makes a call, and answers whether one has that name.
pub fn call(name: &[u8], words: &mut Words, answer: &mut Answer) -> Result<bool, Stop> {
    Ok(
        lines::call(name, words, answer)?
            || parties::call(name, words, answer)?
            || layout::call(name, words, answer)?
            || contents::call(name, words, answer)?
            || tables::call(name, words, answer)?
            || charges::call(name, words, answer)?
            || ssi::call(name, words, answer)?,
    )
}
