//! The command `generate`: a day of messages, made from a number.

ghost use Rattle.std.specs.Prelude.{◌≤◌};
ghost use Rattle.corr_report.specs.Generated.{most_generated};
ghost use Rattle.corr_top.specs.inner.Generate.{GivesGenerated};

use crate::status::Status;
use crate::writing::Texts;
use corr_report::generated;
use corr_text::Text;
use std::alloc::Global;

/// A day of so many messages, made from a number. Nothing is reported.
pub fn generate(alloc: Global, count: u32, seed: u64) -> Result<Texts, Status>
    requires { count ≤ most_generated }
    ensures { GivesGenerated count seed result }
{
    Ok(Texts {
        report: Text::from_bytes(alloc, b"")?,
        out: generated(alloc, count, seed)?,
    })
}
