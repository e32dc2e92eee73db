//! Calls of rows over bytes, identifiers, amounts and files.
#![tactic(auto)]

mod blocks;
mod frame;
pub mod ids;
mod money;
pub mod texts;

use row_words::answer::Answer;
use row_words::stop::Stop;
use row_words::words::Words;

/// Makes a call, and answers whether one has that name.
pub fn call(name: &[u8], words: &mut Words, answer: &mut Answer) -> Result<bool, Stop> {
    Ok(
        texts::call(name, words, answer)?
            || ids::call(name, words, answer)?
            || money::call(name, words, answer)?
            || frame::call(name, words, answer)?
            || blocks::call(name, words, answer)?,
    )
}
