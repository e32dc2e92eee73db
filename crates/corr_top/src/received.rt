//! The command `reconcile`: statements that were received, against the books.

ghost use Rattle.std.specs.Prelude.{◌≡◌, ◌≤◌, ◌++◌, All, IfOk, IsTrue, OnOk, length};
ghost use Rattle.fin_frame.specs.File.{most_bytes};
ghost use Rattle.corr_report.specs.Report.{reply_line};
ghost use Rattle.day_model.specs.Legal.{IsLegal};
ghost use Rattle.fin_contents.specs.Writing.{IsReadable};
ghost use Rattle.fin_message.specs.Sound.{CanBeWritten, Goes};
ghost use Rattle.fin_message.specs.declared.direction.Direction.TheVariants.{Received};
ghost use Rattle.jrn_book.specs.Journal.{IsJournal};
ghost use Rattle.mt950.specs.Page.{mt950_of};
ghost use Rattle.ref_tables.specs.Seen.{few_decimals};
ghost use Rattle.corr_top.specs.Commands.{meaning_of};
ghost use Rattle.corr_top.specs.inner.Ends.{HasTexts};
ghost use Rattle.corr_top.specs.Message.{reply_for};
ghost use Rattle.corr_top.specs.MessageFile.{most_messages};
ghost use Rattle.corr_top.specs.Reconcile.{break_report, envelope_in, read_as, read_from};
ghost use Rattle.corr_top.specs.inner.Reconcile.{CanBeTold, Collects, GivesBreaks};
ghost use Rattle.corr_top.specs.declared.words.Command.TheVariants.{Plain as PlainCommand};
ghost use Rattle.corr_top.specs.declared.words.Plain.TheVariants as plain;

use crate::cutting::{cut_file, read_file};
use crate::message::{NoPay, P37, reference, reply_for};
use crate::opening::{close_journal, open_journal};
use crate::room::Room;
use crate::status::Status;
use crate::tables::read_known;
use crate::writing::Texts;
use corr_disk::Disk;
use corr_ids::{Bic, Envelope};
use corr_io::{Sink, Source};
use corr_report::reply_line;
use corr_text::{Memory, Text, let_go};
use day_model::{Accounts, History};
use fin_frame::Framed;
use fin_message::{Message, MessageFault, verdict};
use mt950::Page950;
use reconcile::breaks;
use ref_tables::RefTables;
use std::alloc::Global;

/// What a received message is: a page of a statement, or one that gives no pay here, for this reason.
#[derive(Drop)]
pub enum Read {
    Page(Page950),
    Other(NoPay),
}

/// The envelope of a message.
pub fn envelope(message: &Message) -> &Envelope
    ensures { result.now ≡ envelope_in message.now }
{
    match message {
        Message::Transfer(envelope, ..) => envelope,
        Message::Cover(envelope, ..) => envelope,
        Message::Debit(envelope, _) => envelope,
        Message::Credit(envelope, _) => envelope,
        Message::Page(envelope, _) => envelope,
    }
}

/// What a valid message is: a page of a statement, or one of another type, which asks for nothing here.
fn kind_of(message: Message) -> Read
    requires goes { Goes Received message }
    requires written { CanBeWritten message }
    ensures value { result ≡ read_as message }
    ensures sound { CanBeTold result }
{
    match message {
        Message::Page(_, page) => Read::Page(page),
        message => {
            let mir = reference(envelope(&message));
            let_go(message);
            Read::Other(NoPay::Unrouted { mir, code: P37 })
        }
    }
}

/// What a message of at most 16,384 bytes is, by its verdict.
fn judge(alloc: Global, home: &Bic, tables: &RefTables, message: &[u8]) -> Result<Read, Memory>
    requires decimals { IsTrue (few_decimals tables.now.ccys) }
    requires short { length message.now ≤ most_bytes }
    ensures value { IfOk result (λ read. read ≡ read_from home.now tables.now message.now) }
    ensures sound { IfOk result CanBeTold }
{
    match verdict(alloc, message, home, tables) {
        Ok(message) => Ok(kind_of(message)),
        Err(MessageFault::Refused { mir, fault }) => Ok(Read::Other(NoPay::Refused { mir, fault })),
        Err(MessageFault::Memory) => Err(Memory),
    }
}

/// Adds the line of the `n`-th message, which is no page.
fn put_other_line(
    alloc: Global,
    a: &Accounts,
    h: &History,
    n: u64,
    why: NoPay,
    report: &mut Text,
) -> Result<(), Memory>
    requires legal { IsLegal a.now h.now.entries }
    ensures { OnOk result (report.new ≡ report.old ++ reply_line a.now h.now.entries n (reply_for why)) }
{
    let line = reply_line(alloc, a, h, n, &reply_for(why))?;
    report.push(line.bytes())
}

/// Reads the messages, adds a line for each that is no page of a statement, and collects the pages.
fn collect(
    alloc: Global,
    tables: &RefTables,
    a: &Accounts,
    h: &History,
    messages: &[Framed<'_>],
    report: &mut Text,
) -> Result<Vec<Page950>, Memory>
    requires decimals { IsTrue (few_decimals tables.now.ccys) }
    requires legal { IsLegal a.now h.now.entries }
    requires few { length messages.now ≤ most_messages }
    requires short { All (λ m. length m ≤ most_bytes) messages.now }
    ensures value { IfOk result (λ pages. Collects a.now h.now.entries tables.now messages.now report.old report.new pages.items) }
    ensures joined { IfOk result (λ pages. All (IsReadable mt950_of) pages.items) }
    ensures few { IfOk result (λ pages. length pages.items ≤ length messages.now) }
{
    let mut pages = Vec::new(alloc);
    for (at, message) in messages.iter().enumerate() {
        match judge(alloc, a.home(), tables, message.bytes())? {
            Read::Page(page) => pages.push(page)?,
            Read::Other(why) => put_other_line(alloc, a, h, at as u64 + 1, why, report)?,
        }
    }
    Ok(pages)
}

/// The report of received messages: a line for each that is no page of a statement, and then what is told of the statements.
fn report_breaks(
    alloc: Global,
    tables: &RefTables,
    a: &Accounts,
    h: &History,
    messages: &[Framed<'_>],
) -> Result<Text, Memory>
    requires decimals { IsTrue (few_decimals tables.now.ccys) }
    requires journal { IsJournal a.now h.now.entries }
    requires few { length messages.now ≤ most_messages }
    requires short { All (λ m. length m ≤ most_bytes) messages.now }
    ensures { IfOk result (λ text. text ≡ break_report a.now h.now.entries tables.now messages.now) }
{
    let mut report = Text::from_bytes(alloc, b"")?;
    let pages = collect(alloc, tables, a, h, messages, &mut report)?;
    report.push(breaks(alloc, a, h, pages)?.bytes())?;
    Ok(report)
}

/// Reads the received messages and makes the report of them.
fn tell_breaks<S: Source>(
    alloc: Global,
    tables: &RefTables,
    a: &Accounts,
    h: &History,
    source: &mut S,
) -> Result<Texts, Status>
    requires decimals { IsTrue (few_decimals tables.now.ccys) }
    requires journal { IsJournal a.now h.now.entries }
    ensures { GivesBreaks S.Source a.now h.now.entries tables.now source.old source.new result }
{
    let file = read_file(alloc, source)?;
    let messages = cut_file(alloc, file.bytes())?;
    Ok(Texts {
        report: report_breaks(alloc, tables, a, h, messages.as_slice())?,
        out: Text::from_bytes(alloc, b"")?,
    })
}

/// Reads the tables of banks, currencies and countries, opens the journal, reads the received messages, and makes the report of
/// them. Nothing is written to the disk.
pub fn reconcile<S: Source, K: Sink, D: Disk>(
    alloc: Global,
    room: Room<S, K, D>,
) -> (Room<S, K, D>, Result<Texts, Status>)
    ensures texts { HasTexts S.Source D.Disk (meaning_of (PlainCommand plain.Reconcile)) room result.0 result.1 }
    ensures honest { D.honest result.0.disk ≡ D.honest room.disk }
{
    let mut room = room;
    let tables = match read_known(alloc, &mut room.tables) {
        Ok(tables) => tables,
        Err(stop) => return (room, Err(Status::from(stop))),
    };
    let (book, _) = match open_journal(alloc, room.disk) {
        Ok(opened) => opened,
        Err((disk, fault)) => {
            let_go(tables);
            room.disk = disk;
            return (room, Err(Status::from(fault)));
        }
    };
    let source = &mut room.received;
    let texts = tell_breaks(alloc, &tables, book.accounts(), book.history(), source);
    let_go(tables);
    room.disk = close_journal(book);
    (room, texts)
}
