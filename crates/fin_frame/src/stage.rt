//! Where in a file a byte stands.

ghost use Rattle.std.specs.Prelude.{◌≡◌, ◌+◌, ℕ, IsTrue, IfSome};
ghost use Rattle.fin_frame.specs.Tidy.{is_tidy};
ghost use Rattle.fin_frame.specs.inner.Machine.{landed as landed_at, stage_between, unbalanced_at};

/// Where the next byte stands.
#[derive(Clone, Copy, Debug, PartialEq, Eq)]
pub(crate) enum Stage {
    /// In a gap, or at the front of the file. Where `marked`, no `$` may come.
    Between { marked: bool },
    /// After one or two bytes of `{1:` that stand apart from the messages before.
    Opening { matched: u8 },
    /// Within `depth` groups of the message that began at `from`.
    Within { from: u64, depth: u32 },
    /// Directly after a whole group of the message that began at `from`, and up to two bytes of `{1:`.
    After { from: u64, matched: u8 },
}

/// Where the next byte stands, after bytes that leave so many groups of a message open.
pub(crate) fn landed(from: u64, left: u32) -> Stage
    ensures { result ≡ landed_at from left }
{
    if left == 0 {
        Stage::After { from, matched: 0 }
    } else {
        Stage::Within { from, depth: left }
    }
}

/// Where the byte after `b` stands, where `b` is of a gap or the first of a group.
pub(crate) fn between(marked: bool, b: u8) -> Option<Stage>
    ensures stage { result ≡ stage_between marked b }
    ensures tidy { (fed : ℕ) → IfSome result (λ stage. IsTrue (is_tidy stage (fed + 1))) }
{
    match b {
        b'{' => Some(Stage::Opening { matched: 1 }),
        b'$' if !marked => Some(Stage::Between { marked: true }),
        b'\n' | b'\r' | b' ' => Some(Stage::Between { marked }),
        _ => None,
    }
}

/// Where the message begins within a group of which the input would end here.
pub(crate) fn unbalanced(stage: Stage, fed: u64) -> Option<u64>
    requires { IsTrue (is_tidy stage fed) }
    ensures { result ≡ unbalanced_at stage fed }
{
    match stage {
        Stage::Between { .. } | Stage::After { matched: 0, .. } => None,
        Stage::Opening { matched } => Some(fed - matched as u64),
        Stage::Within { from, .. } | Stage::After { from, .. } => Some(from),
    }
}
