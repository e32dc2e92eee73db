//! References of pages.

ghost use Rattle.std.specs.Prelude.{◌≡◌, IfOk};
ghost use Rattle.corr_ids.specs.Day.{InCentury};
ghost use Rattle.statement.specs.Pages.{page_reference};

use corr_ids::{Day, put_yymmdd};
use corr_text::{Memory, Text, put_digits};
use day_model::AcctNo;
use std::alloc::Global;

/// The reference of a page of an account's statement of a day, as `S2406030001P0001`.
pub fn page_reference(alloc: Global, day: Day, n: AcctNo, page: u32) -> Result<Text, Memory>
    requires { InCentury day }
    ensures { IfOk result (λ text. text ≡ page_reference day n.0 page) }
{
    let mut text = Text::from_bytes(alloc, b"S")?;
    put_yymmdd(day, &mut text)?;
    put_digits(alloc, n.0 as u64, 4, &mut text)?;
    text.push(b"P")?;
    put_digits(alloc, page as u64, 4, &mut text)?;
    Ok(text)
}
