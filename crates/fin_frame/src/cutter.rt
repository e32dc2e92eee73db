//! The cutter of a file into messages.

ghost use Rattle.std.specs.Prelude.{◌≡◌, ◌+◌, ◌^◌, ◌<◌, ◌≤◌, [], ◌++◌, length, take, Some, None, IsSome, IsTrue, OnOk, OnErr};
ghost use Rattle.fin_frame.specs.Tidy.{is_tidy};

use crate::fault::FrameFault;
use crate::pieces::PieceCutter;
use crate::stage::Stage;
use crate::{group, stage};
use corr_text::{List, Memory, Text};
use std::alloc::Global;

/// What a message begins with.
pub(crate) const LEAD: [u8; 3] = *b"{1:";

/// The most bytes of a message.
pub(crate) const MOST_BYTES: usize = 16384;

/// How much room a message has at first, for most are short.
const ROOM: usize = 253;

/// Cuts the bytes of a file into its messages, in whatever pieces they come.
///
/// A message is a group in braces that begins `{1:` and the groups directly after it, 16,384 bytes at most, as
/// `{1:F01HOMEUS33AXXX0001000007}{4:..}`. Line ends, spaces and one `$` may stand between two messages; before the first
/// there is no `$`.
#[derive(Debug, Drop)]
pub struct Cutter {
    alloc: Global,
    stage: Stage,
    held: Option<Text>,
    fed: u64,
    begun: u32,
    failed: Option<FrameFault>,
    ghost counted: { begun ≤ fed },
    ghost few: { fed < 2 ^ 32 },
    ghost tidy: { IsTrue (is_tidy stage fed) },
}

impl Cutter {
    ghost use Rattle.std.specs.Prelude.{◌≡◌, ◌+◌, ◌^◌, ◌<◌, ◌≤◌, [], ◌++◌, length, take, Some, None, true, false, IfOk, IsSome, IsTrue, OnOk, OnErr};
    ghost use Rattle.corr_text.specs.First.{unless_fault};
    ghost use Rattle.fin_frame.specs.Tidy.{is_tidy};
    ghost use Rattle.fin_frame.specs.File.{IsCutInto};
    ghost use Rattle.fin_frame.specs.inner.Machine.{begins, gives, to, held_bytes, resumes, next_between, next_opening, next_close, state_of, HasTaken, HasTakenByte, HasTakenAll};
    ghost use Rattle.fin_frame.specs.Cutting.{Knows, WasFed, EndsInput};
    ghost use Rattle.fin_frame.specs.Pieces.{HasTakenFile};
    ghost use Rattle.fin_frame.specs.Whole.{is_led};

    /// A cutter that was fed nothing yet.
    pub fn new(alloc: Global) -> Cutter
        ensures made { WasFed result [] [] }
        ensures sound { result.failed ≡ None }
        // A file has one cut at most.
        ensures one_cut { (file : _) (messages : _) (others : _) → IsCutInto file messages → IsCutInto file others → messages ≡ others }
    {
        Cutter {
            alloc,
            stage: Stage::Between { marked: true },
            held: None,
            fed: 0,
            begun: 0,
            failed: None,
        }
    }

    /// A cutter that goes on where one of pieces stands, and how many bytes of the next piece it was fed: the `{1:` directly after a
    /// message that was given, or none.
    pub fn resumed(
        alloc: Global,
        pieces: &PieceCutter,
        piece: &[u8],
    ) -> Result<(Cutter, usize), Memory>
        requires few { pieces.now.fed + length piece.now < 2 ^ 32 }
        requires led { pieces.now.apart ≡ false → is_led piece.now ≡ true }
        ensures sound { IfOk result (λ made. made.0.failed ≡ None) }
        ensures count { IfOk result (λ made. (made.0.fed ≡ pieces.now.fed + made.1) × (made.1 ≤ length piece.now)) }
        // The cutter has been fed what the other one has taken and these bytes, and gave the same messages.
        ensures fed { (file : _) (messages : _) → HasTakenFile pieces.now file messages →
            IfOk result (λ made. WasFed made.0 (file ++ take made.1 piece.now) messages) }
    {
        if pieces.apart {
            let cutter = Cutter {
                alloc,
                stage: Stage::Between {
                    marked: pieces.marked,
                },
                held: None,
                fed: pieces.fed,
                begun: pieces.begun,
                failed: None,
            };
            return Ok((cutter, 0));
        }
        let first = Text::with_room(alloc, &LEAD, ROOM)?;
        let cutter = Cutter {
            alloc,
            stage: Stage::Within {
                from: pieces.fed,
                depth: 1,
            },
            held: Some(first),
            fed: pieces.fed + LEAD.len() as u64,
            begun: pieces.begun + 1,
            failed: None,
        };
        Ok((cutter, LEAD.len()))
    }

    /// Takes the next bytes of the file, and adds each message that they show to be whole.
    ///
    /// `Stray` and `TooLong` come where the bytes fed so far show them, `Memory` where there was no room. After any
    /// fault it comes again, and no message. The bytes of a file are fewer than 2^32.
    pub fn feed(&mut self, piece: &[u8], out: &mut List<Text>) -> Result<(), FrameFault>
        // All the bytes of a file are fewer than 2 ^ 32.
        requires few { self.old.failed ≡ None → self.old.fed + length piece.now < 2 ^ 32 }
        ensures answer { result ≡ unless_fault self.new.failed }
        // The cutter has been fed the piece as well, and gave what was added.
        ensures fed { (fed : _) (given : _) → WasFed self.old fed given →
            (gained : _) × (out.new ≡ out.old ++ gained) × WasFed self.new (fed ++ piece.now) (given ++ gained) }
        ensures again { IsSome self.old.failed → (self.new ≡ self.old) × (out.new ≡ out.old) }
    {
        if let Some(fault) = self.failed {
            return Err(fault);
        }
        match self.take_all(piece, out) {
            Ok(()) => Ok(()),
            Err(fault) => {
                self.failed = Some(fault);
                Err(fault)
            }
        }
    }

    /// The end of the file: adds the last message.
    ///
    /// A fault of `feed` comes again. Otherwise `Unbalanced` comes where the file ends within a group, and `Memory`
    /// where there was no room for the message.
    pub fn finish(mut self, out: &mut List<Text>) -> Result<(), FrameFault>
        // The messages given, with what is added, are those of the file, or it ends within a group.
        ensures ends { (fed : _) (given : _) → WasFed self fed given →
            (gained : _) × (out.new ≡ out.old ++ gained) × EndsInput self.failed result fed (given ++ gained) }
        ensures err { OnErr result (out.new ≡ out.old) }
    {
        if let Some(fault) = self.failed {
            return Err(fault);
        }
        if let Some(at) = stage::unbalanced(self.stage, self.fed) {
            return Err(FrameFault::Unbalanced { at });
        }
        Ok(self.give(out)?)
    }

    /// How many messages have begun: how often the `{1:` of a message is whole in the bytes fed so far, up to a fault.
    pub fn begun(&self) -> u32
        ensures { (fed : _) (given : _) → WasFed self.now fed given → Knows self.now.failed fed given result }
    {
        self.begun
    }

    /// Takes bytes one after another.
    fn take_all(&mut self, piece: &[u8], out: &mut List<Text>) -> Result<(), FrameFault>
        requires sound { self.old.failed ≡ None }
        requires few { self.old.fed + length piece.now < 2 ^ 32 }
        ensures failed { self.new.failed ≡ self.old.failed }
        ensures took { HasTakenAll result (state_of self.old out.old) piece.now (state_of self.new out.new) }
    {
        let mut rest = piece;
        while !rest.is_empty() {
            let len = self.step(rest, out)?;
            rest = rest.split_at(len).1;
        }
        Ok(())
    }

    /// Takes bytes from the front of those that are left, one at least.
    fn step(&mut self, rest: &[u8], out: &mut List<Text>) -> Result<usize, FrameFault>
        requires sound { self.old.failed ≡ None }
        requires some { 0 < length rest.now }
        requires few { self.old.fed + length rest.now < 2 ^ 32 }
        ensures failed { self.new.failed ≡ self.old.failed }
        ensures took { HasTaken result (state_of self.old out.old) rest.now (state_of self.new out.new) }
    {
        match self.stage {
            Stage::Between { marked } => self.between(marked, rest[0]),
            Stage::Opening { matched } => self.opening(matched, rest[0], out),
            Stage::Within { from, depth } => self.inside(from, depth, rest),
            Stage::After { from, matched } => self.after(from, matched, rest, out),
        }
    }

    /// Takes a byte of a gap, or the first one of a group.
    fn between(&mut self, marked: bool, b: u8) -> Result<usize, FrameFault>
        requires sound { self.old.failed ≡ None }
        requires few { self.old.fed + 1 < 2 ^ 32 }
        ensures failed { self.new.failed ≡ self.old.failed }
        ensures took { (given : _) → HasTakenByte result (state_of self.old given) (next_between marked (state_of self.old given) b) (state_of self.new given) }
    {
        match stage::between(marked, b) {
            Some(stage) => {
                self.pass(stage);
                Ok(1)
            }
            None => Err(FrameFault::Stray { at: self.fed }),
        }
    }

    /// One byte more, and the next one stands there.
    fn pass(&mut self, stage: Stage)
        requires few { self.old.fed + 1 < 2 ^ 32 }
        requires tidy { IsTrue (is_tidy stage (self.old.fed + 1)) }
        ensures failed { self.new.failed ≡ self.old.failed }
        ensures to { (given : _) → state_of self.new given ≡ to stage (state_of self.old given) }
    {
        self.stage = stage;
        self.fed += 1;
    }

    /// Takes the second or third byte of a `{1:` that stands apart.
    fn opening(&mut self, matched: u8, b: u8, out: &mut List<Text>) -> Result<usize, FrameFault>
        requires sound { self.old.failed ≡ None }
        requires few { self.old.fed + 1 < 2 ^ 32 }
        requires matched { (matched ≤ 2) × (matched ≤ self.old.fed) }
        ensures failed { self.new.failed ≡ self.old.failed }
        ensures took { HasTakenByte result (state_of self.old out.old) (next_opening matched (state_of self.old out.old) b) (state_of self.new out.new) }
    {
        if b != LEAD[matched as usize] {
            return Err(FrameFault::Stray {
                at: self.fed - matched as u64,
            });
        }
        if matched == 2 {
            self.begin(out)?;
        } else {
            self.pass(Stage::Opening {
                matched: matched + 1,
            });
        }
        Ok(1)
    }

    /// Takes a byte directly after a group of the open message, or more where `{1:` doesn't go on.
    fn after(
        &mut self,
        from: u64,
        matched: u8,
        rest: &[u8],
        out: &mut List<Text>,
    ) -> Result<usize, FrameFault>
        requires sound { self.old.failed ≡ None }
        requires some { 0 < length rest.now }
        requires few { self.old.fed + length rest.now < 2 ^ 32 }
        requires matched { (matched ≤ 2) × (matched ≤ self.old.fed) }
        requires stage { self.old.stage ≡ Stage.After from matched }
        ensures failed { self.new.failed ≡ self.old.failed }
        ensures took { HasTaken result (state_of self.old out.old) rest.now (state_of self.new out.new) }
    {
        let b = rest[0];
        if b == LEAD[matched as usize] {
            if matched == 2 {
                self.begin(out)?;
            } else {
                self.pass(Stage::After {
                    from,
                    matched: matched + 1,
                });
            }
            return Ok(1);
        }
        if matched > 0 {
            self.resume(from, matched)?;
            return self.inside(from, 1, rest);
        }
        self.close(b, out)
    }

    /// Adds bytes of a `{1:` that doesn't go on to the open message: they began another group of it.
    fn resume(&mut self, from: u64, matched: u8) -> Result<(), Memory>
        requires matched { (0 < matched) × (matched ≤ 2) × (matched ≤ self.old.fed) }
        ensures failed { self.new.failed ≡ self.old.failed }
        ensures ok { OnOk result ((given : _) → state_of self.new given ≡ resumes from matched (state_of self.old given)) }
        ensures kept { OnOk result ((self.new.fed ≡ self.old.fed) × (self.new.stage ≡ Stage.Within from 1)) }
        ensures err { OnErr result (self.new.begun ≡ self.old.begun) }
    {
        self.hold(&LEAD[..matched as usize])?;
        self.stage = Stage::Within { from, depth: 1 };
        Ok(())
    }

    /// Takes the byte after the open message, which is whole before a gap.
    fn close(&mut self, b: u8, out: &mut List<Text>) -> Result<usize, FrameFault>
        requires sound { self.old.failed ≡ None }
        requires few { self.old.fed + 1 < 2 ^ 32 }
        ensures failed { self.new.failed ≡ self.old.failed }
        ensures took { HasTakenByte result (state_of self.old out.old) (next_close (state_of self.old out.old) b) (state_of self.new out.new) }
    {
        match b {
            b'\n' | b'\r' | b' ' | b'$' => {
                self.give(out)?;
                self.pass(Stage::Between { marked: b == b'$' });
                Ok(1)
            }
            _ => Err(FrameFault::Stray { at: self.fed }),
        }
    }

    /// Takes bytes within groups of the open message, up to the end of them all or of its room.
    fn inside(&mut self, from: u64, depth: u32, rest: &[u8]) -> Result<usize, FrameFault>
        requires sound { self.old.failed ≡ None }
        requires some { 0 < length rest.now }
        requires few { self.old.fed + length rest.now < 2 ^ 32 }
        requires stage { self.old.stage ≡ Stage.Within from depth }
        ensures failed { self.new.failed ≡ self.old.failed }
        ensures took { (given : _) → HasTaken result (state_of self.old given) rest.now (state_of self.new given) }
    {
        let held = self.held_len();
        if held >= MOST_BYTES {
            return Err(FrameFault::TooLong { at: from });
        }
        let reach = rest.len().min(MOST_BYTES - held);
        let (len, left) = group::within(&rest[..reach], depth);
        self.hold(&rest[..len])?;
        self.stage = stage::landed(from, left);
        self.fed += len as u64;
        Ok(len)
    }

    /// Gives the open message, and begins one with the byte after `{1`.
    fn begin(&mut self, out: &mut List<Text>) -> Result<(), Memory>
        requires few { self.old.fed + 1 < 2 ^ 32 }
        requires matched { 2 ≤ self.old.fed }
        ensures failed { self.new.failed ≡ self.old.failed }
        ensures ok { OnOk result (state_of self.new out.new ≡ begins (state_of self.old out.old)) }
        ensures err { OnErr result ((out.new ≡ out.old) × (self.new.begun ≡ self.old.begun)) }
    {
        let first = Text::with_room(self.alloc, &LEAD, ROOM)?;
        self.give(out)?;
        self.held = Some(first);
        self.stage = Stage::Within {
            from: self.fed - 2,
            depth: 1,
        };
        self.fed += 1;
        self.begun += 1;
        Ok(())
    }

    /// Gives the open message.
    fn give(&mut self, out: &mut List<Text>) -> Result<(), Memory>
        ensures failed { self.new.failed ≡ self.old.failed }
        ensures ok { OnOk result (state_of self.new out.new ≡ gives (state_of self.old out.old)) }
        ensures err { OnErr result ((out.new ≡ out.old) × (self.new.begun ≡ self.old.begun)) }
    {
        if let Some(message) = self.held.take() {
            out.push(message)?;
        }
        Ok(())
    }

    /// Adds bytes to the open message.
    fn hold(&mut self, bytes: &[u8]) -> Result<(), Memory>
        ensures failed { self.new.failed ≡ self.old.failed }
        ensures ok { OnOk result (self.new ≡ record self.old { held = Some (held_bytes (state_of self.old []) ++ bytes.now) }) }
        ensures err { OnErr result (self.new.begun ≡ self.old.begun) }
    {
        match &mut self.held {
            Some(message) => message.push(bytes)?,
            None => self.held = Some(Text::from_bytes(self.alloc, bytes)?),
        }
        Ok(())
    }

    /// How many bytes of the open message there are.
    fn held_len(&self) -> usize
        ensures { result ≡ length (held_bytes (state_of self.now [])) }
    {
        match &self.held {
            Some(message) => message.bytes().len(),
            None => 0,
        }
    }
}
