//! Texts, written whole to sinks.

ghost use Rattle.std.specs.Prelude.{◌≡◌, [], OnOk, IfErr, IfOk};
ghost use Rattle.corr_top.specs.Writing.{FailedAt, FailsWriting, Received};
ghost use Rattle.corr_top.specs.inner.Writing.{IsWritten};

use crate::slices::after;
use crate::status::Status;
use corr_io::Sink;
use corr_text::{Memory, Text};
use std::alloc::Global;

/// The count of faults of a sink before a call and after it.
#[derive(Clone, Copy)]
pub struct WriteStop {
    pub before: u64,
    pub after: u64,
}

/// Appends all of `text` to a sink; an empty text makes no call on it. After a fault some front part of it was appended.
pub fn write_whole<K: Sink>(sink: &mut K, text: &[u8]) -> Result<(), WriteStop>
    ensures received { OnOk result (Received K.held K.faults sink.old sink.new text.now) }
    ensures failed { IfErr result (λ e. FailedAt K.held K.faults sink.old sink.new text.now e.before e.after) }
{
    let before = sink.faults();
    let mut rest = text;
    while !rest.is_empty() {
        match sink.write(rest) {
            Ok(count) => rest = after(rest, count),
            Err(_) => {
                return Err(WriteStop {
                    before,
                    after: sink.faults(),
                });
            }
        }
    }
    Ok(())
}

/// What a command writes: its report, and the messages that leave.
#[derive(Drop)]
pub struct Texts {
    pub report: Text,
    pub out: Text,
}

impl Texts {
    /// Nothing to write.
    pub fn none(alloc: Global) -> Result<Texts, Memory>
        ensures { IfOk result (λ texts. (texts.report ≡ []) × (texts.out ≡ [])) }
    {
        Ok(Texts {
            report: Text::from_bytes(alloc, b"")?,
            out: Text::from_bytes(alloc, b"")?,
        })
    }
}

/// Writes the report, then the messages that leave. After a fault of the first sink the other one was left alone.
fn write_both<K: Sink>(report: &mut K, out: &mut K, texts: &Texts) -> Result<(), WriteStop>
    ensures report { OnOk result (Received K.held K.faults report.old report.new texts.now.report) }
    ensures out { OnOk result (Received K.held K.faults out.old out.new texts.now.out) }
    ensures failed { IfErr result (λ e. FailsWriting K.held K.faults report.old report.new texts.now.report
        out.old out.new texts.now.out e.before e.after) }
{
    write_whole(report, texts.report.bytes())?;
    write_whole(out, texts.out.bytes())
}

/// Writes the report, then the messages that leave, and tells how that ended.
pub fn write_texts<K: Sink>(report: &mut K, out: &mut K, texts: &Texts) -> Status
    ensures { IsWritten K.Sink report.old report.new texts.now.report out.old out.new texts.now.out result }
{
    match write_both(report, out, texts) {
        Ok(()) => Status::Done,
        Err(WriteStop { before, after }) => Status::WriteFault { before, after },
    }
}
