//! The calls that rows name.

use corr_text::Text;
use row_words::answer::Answer;
use row_words::stop::Stop;
use row_words::words::Words;
use std::alloc::Global;

/// The answer of the call that the first word names, with the words after it.
pub fn answer(alloc: Global, words: &[Text]) -> Result<Answer, Stop> {
    let (name, words) = words.split_first().ok_or(Stop::Unreadable)?;
    let mut words = Words::new(words);
    let mut answer = Answer::new(alloc)?;
    if call(name.bytes(), &mut words, &mut answer)? && words.are_used() {
        Ok(answer)
    } else {
        Err(Stop::Unreadable)
    }
}

/// Makes a call, and answers whether one has that name.
fn call(name: &[u8], words: &mut Words, answer: &mut Answer) -> Result<bool, Stop> {
    Ok(
        row_texts::call(name, words, answer)?
            || row_fields::call(name, words, answer)?
            || row_messages::call(name, words, answer)?
            || row_payments::call(name, words, answer)?,
    )
}
