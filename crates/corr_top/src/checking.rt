//! The command `check`: the verdict on each message, without a journal.

ghost use Rattle.std.specs.Prelude.{◌≡◌, ◌≤◌, ◌++◌, All, IfOk, IsTrue, Ok, OnOk, length};
ghost use Rattle.corr_report.specs.Lines.{line};
ghost use Rattle.fin_frame.specs.File.{most_bytes};
ghost use Rattle.fin_message.specs.Sound.{Goes};
ghost use Rattle.fin_message.specs.declared.direction.Direction.TheVariants.{Received};
ghost use Rattle.ref_tables.specs.Seen.{few_decimals};
ghost use Rattle.corr_top.specs.Check.{check_line, check_lines, type_of, verdict_words};
ghost use Rattle.corr_top.specs.inner.Check.{GivesVerdicts};
ghost use Rattle.corr_top.specs.Commands.{meaning_of};
ghost use Rattle.corr_top.specs.inner.Ends.{HasTexts};
ghost use Rattle.corr_top.specs.MessageFile.{most_messages};
ghost use Rattle.corr_top.specs.declared.words.Command.TheVariants.{Plain as PlainCommand};
ghost use Rattle.corr_top.specs.declared.words.Plain.TheVariants as plain;

use crate::cutting::{cut_file, read_file};
use crate::message::reference;
use crate::received::envelope;
use crate::room::Room;
use crate::status::Status;
use crate::tables::read_known;
use crate::writing::Texts;
use corr_disk::Disk;
use corr_ids::Bic;
use corr_io::{Sink, Source};
use corr_report::put_refused;
use corr_text::{Decimal, Memory, Text, let_go};
use fin_frame::Framed;
use fin_message::{Message, MessageFault, verdict};
use ref_tables::RefTables;
use std::alloc::Global;

/// The type of a valid message.
fn type_of(message: &Message) -> &[u8]
    ensures { result.now ≡ type_of message.now }
{
    match message {
        Message::Transfer(..) => b"103",
        Message::Cover(..) => b"202COV",
        Message::Debit(..) => b"900",
        Message::Credit(..) => b"910",
        Message::Page(..) => b"950",
    }
}

/// Adds the line of a valid message: its number, its reference, `VALID` and its type.
fn put_valid<'a>(number: &'a [u8], message: &'a Message, out: &mut Text) -> Result<(), Memory>
    requires { Goes Received message.now }
    ensures { OnOk result (out.new ≡ out.old ++ line number.now (verdict_words (Ok message.now))) }
{
    let mir = reference(envelope(message));
    out.push_all(&[number, b" ", &mir.0, b" VALID ", type_of(message), b"\n"])
}

/// Adds the line of the `n`-th message, of at most 16,384 bytes, by its verdict.
fn put_check_line(
    alloc: Global,
    home: &Bic,
    tables: &RefTables,
    n: u64,
    message: &[u8],
    out: &mut Text,
) -> Result<(), Memory>
    requires decimals { IsTrue (few_decimals tables.now.ccys) }
    requires short { length message.now ≤ most_bytes }
    ensures { OnOk result (out.new ≡ out.old ++ check_line home.now tables.now n message.now) }
{
    let mut room = Decimal::new();
    let number = room.padded(n, 6);
    match verdict(alloc, message, home, tables) {
        Ok(message) => {
            let added = put_valid(number, &message, out);
            let_go(message);
            added
        }
        Err(MessageFault::Refused { mir, fault }) => put_refused(number, &mir, &fault, out),
        Err(MessageFault::Memory) => Err(Memory),
    }
}

/// A line for each message.
fn verdicts(
    alloc: Global,
    home: &Bic,
    tables: &RefTables,
    messages: &[Framed<'_>],
) -> Result<Text, Memory>
    requires decimals { IsTrue (few_decimals tables.now.ccys) }
    requires few { length messages.now ≤ most_messages }
    requires short { All (λ m. length m ≤ most_bytes) messages.now }
    ensures { IfOk result (λ text. text ≡ check_lines home.now tables.now messages.now) }
{
    let mut out = Text::from_bytes(alloc, b"")?;
    for (at, message) in messages.iter().enumerate() {
        put_check_line(
            alloc,
            home,
            tables,
            at as u64 + 1,
            message.bytes(),
            &mut out,
        )?;
    }
    Ok(out)
}

/// Reads the messages and makes the report of them.
fn tell_verdicts<S: Source>(
    alloc: Global,
    home: &Bic,
    tables: &RefTables,
    source: &mut S,
) -> Result<Texts, Status>
    requires { IsTrue (few_decimals tables.now.ccys) }
    ensures { GivesVerdicts S.Source home.now tables.now source.old source.new result }
{
    let file = read_file(alloc, source)?;
    let messages = cut_file(alloc, file.bytes())?;
    Ok(Texts {
        report: verdicts(alloc, home, tables, messages.as_slice())?,
        out: Text::from_bytes(alloc, b"")?,
    })
}

/// Reads the tables of banks, currencies and countries and the messages, and makes the report of the verdict on each, as a message to
/// this home bank. The disk isn't touched.
pub fn check<S: Source, K: Sink, D: Disk>(
    alloc: Global,
    home: &Bic,
    room: Room<S, K, D>,
) -> (Room<S, K, D>, Result<Texts, Status>)
    ensures texts { HasTexts S.Source D.Disk (meaning_of (PlainCommand (plain.Check home.now))) room result.0 result.1 }
    ensures disk { result.0.disk ≡ room.disk }
{
    let mut room = room;
    let tables = match read_known(alloc, &mut room.tables) {
        Ok(tables) => tables,
        Err(stop) => return (room, Err(Status::from(stop))),
    };
    let texts = tell_verdicts(alloc, home, &tables, &mut room.messages);
    let_go(tables);
    (room, texts)
}
