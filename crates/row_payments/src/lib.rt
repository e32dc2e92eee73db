//! Calls of rows over accounts, payments and reports.
#![tactic(auto)]

mod accounts;
mod books;
mod cores;
mod desks;
mod histories;
mod pays;
mod plans;
mod reports;
mod routes;

use row_words::answer::Answer;
use row_words::stop::Stop;
use row_words::words::Words;

/// Makes a call, and answers whether one has that name.
pub fn call(name: &[u8], words: &mut Words, answer: &mut Answer) -> Result<bool, Stop> {
    Ok(
        accounts::call(name, words, answer)?
            || cores::call(name, words, answer)?
            || routes::call(name, words, answer)?
            || plans::call(name, words, answer)?
            || reports::call(name, words, answer)?,
    )
}
