//! The kinds of content that several message types share: references, times, amounts, parties and lines of text.
#![tactic(auto)]

mod amount;
mod codes;
mod fields;
mod line;
mod metal;
mod party;
mod rate;
mod reference;
mod short;
mod texts;
mod time;
mod value;

pub use amount::{CcyAmount, ccy_amount_in, minor_in, put_ccy_amount, put_ccy_amount_text};
pub use codes::{C03, C08, P25, P26, P27, T26, T40, T43, T50, T52};
pub use fields::{
    push_ccy_amount, push_ccy_amounts, push_party, push_rate, push_texts, push_times,
};
pub use line::{array_of, first_slash, line_field, one_line};
pub use party::{KnownParty, put_known_party};
pub use rate::{Rate, put_rate};
pub use reference::{Reference, put_reference};
pub use short::{ShortLine, put_short_line};
pub use texts::{Texts, or_none, put_texts};
pub use time::{Time, is_clock, put_time};
pub use value::{Value, ValueDate, is_dated_amount, put_value};
