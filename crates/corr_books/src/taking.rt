//! Passes are taken back.

ghost use Rattle.std.specs.Prelude.{◌≡◌, [], None};
ghost use Rattle.corr_books.specs.inner.Passes.{AllFit};
ghost use Rattle.corr_books.specs.inner.Taking.{AreTaken};

use front_word::{Front, Pass, Writer};

/// Takes all these passes back, the last one first.
pub(crate) fn take_all(writer: &mut Writer, f: &Front, passes: Vec<Pass>)
    requires table { f.now ≡ writer.old.table }
    requires owed { writer.old.owed ≡ None }
    requires back { writer.old.back ≡ [] }
    requires passes { AllFit f.now passes.items }
    ensures { AreTaken writer.old passes.items writer.new [] }
{
    let mut passes = passes;
    while let Some(pass) = passes.pop() {
        writer.join(f, pass);
    }
}
