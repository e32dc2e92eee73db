//! Calls of rows over messages.
#![tactic(auto)]

mod advices;
mod covers;
pub mod given;
mod kinds;
mod messages;
mod statements;
mod transfers;

use row_words::answer::Answer;
use row_words::stop::Stop;
use row_words::words::Words;

/// Makes a call, and answers whether one has that name.
pub fn call(name: &[u8], words: &mut Words, answer: &mut Answer) -> Result<bool, Stop> {
    Ok(
        transfers::call(name, words, answer)?
            || covers::call(name, words, answer)?
            || advices::call(name, words, answer)?
            || statements::call(name, words, answer)?
            || messages::call(name, words, answer)?,
    )
}
