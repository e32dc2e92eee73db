//! The report of a run.

ghost use Rattle.std.specs.Prelude.{◌≡◌, ◌++◌, ◌∷◌, [], codes, IfOk, OnOk};
ghost use Rattle.std.specs.Fmt.{decimal};
ghost use Rattle.std.specs.List.{All};
ghost use Rattle.day_model.specs.Chart.{accounts_of};
ghost use Rattle.day_model.specs.Laws.{DebitsEqualCredits};
ghost use Rattle.day_model.specs.Legal.{IsLegal};
ghost use Rattle.corr_report.specs.Lines.{line};
ghost use Rattle.corr_report.specs.Report.{NamesPlace, count_line, or_dashes, reply_line, report_end, report_of, tag_text};
ghost use Rattle.corr_report.specs.Totals.{AreCurrencies, currencies_of};

use crate::outcome::put_entry;
use crate::totals::put_totals;
use crate::words::{plain, put_number, put_word};
use corr_ids::Mir;
use corr_text::{Code, Decimal, Fault, Memory, Text};
use day_model::{Accounts, History, Reply};
use std::alloc::Global;

/// For how many bytes a line there is room at first.
const LINE_ROOM: usize = 64;

fn plain_tag(tag: &[u8; 3]) -> &[u8]
    ensures { result.now ≡ tag_text tag.now }
{
    if tag[2] == b' ' {
        &tag[..2]
    } else {
        tag.as_slice()
    }
}

// A message's reference, or 28 dashes where it has none.
fn mir_or_dashes(mir: &Option<Mir>) -> &[u8]
    ensures { result.now ≡ or_dashes mir.now }
{
    match mir {
        Some(mir) => &mir.0,
        None => b"----------------------------",
    }
}

/// Adds the line of a message that a fault refuses, after its number: its MIR or 28 dashes, `REFUSED`, and the code, the tag and which of
/// that tag it is.
///
/// `Memory`: there was no room for the line.
#[inline(never)]
pub fn put_refused<'a>(
    number: &'a [u8],
    mir: &'a Option<Mir>,
    fault: &'a Fault,
    out: &mut Text,
) -> Result<(), Memory>
    ensures { OnOk result (out.new ≡ out.old ++ line number.now (or_dashes mir.now ∷ codes "REFUSED" ∷ fault.now.code.0 ∷ tag_text fault.now.tag ∷ decimal fault.now.nth ∷ [])) }
{
    let mut room = Decimal::new();
    out.push_all(&[
        number,
        b" ",
        mir_or_dashes(mir),
        b" REFUSED ",
        &fault.code.0,
        b" ",
        plain_tag(&fault.tag),
        b" ",
        plain(fault.nth as u64, &mut room),
        b"\n",
    ])
}

// Adds the line of a message without a route: in one piece, where its number has six digits.
fn put_unrouted(number: &[u8], mir: &Mir, code: &Code, out: &mut Text) -> Result<(), Memory>
    ensures { OnOk result (out.new ≡ out.old ++ line number.now (mir.now.0 ∷ codes "REFUSED" ∷ code.now.0 ∷ [])) }
{
    if number.len() != 6 {
        return out.push_all(&[number, b" ", &mir.0, b" REFUSED ", &code.0, b"\n"]);
    }
    let mut words = *b"000000                              REFUSED    \n";
    words[44..47].copy_from_slice(&code.0);
    words[7..35].copy_from_slice(&mir.0);
    words[..6].copy_from_slice(number);
    out.push(&words)
}

/// Adds the line of the `n`-th message, as in the report. `room` is where its number is made; lines share it.
///
/// The history is legal for the accounts, and has the place that the reply names. `Memory`: there was no room for the line;
/// then a part of it may have been added.
pub fn put_reply_line(
    alloc: Global,
    a: &Accounts,
    h: &History,
    n: u64,
    reply: &Reply,
    room: &mut Decimal,
    out: &mut Text,
) -> Result<(), Memory>
    requires legal { IsLegal a.now h.now.entries }
    requires place { NamesPlace h.now.entries reply.now }
    ensures { OnOk result (out.new ≡ out.old ++ reply_line a.now h.now.entries n reply.now) }
{
    let number = room.padded(n, 6);
    match reply {
        Reply::Entered { mir, place } => {
            out.push_all(&[number, b" ", &mir.0])?;
            put_entry(alloc, a, *place, h.get(*place), out)?;
            out.push(b"\n")
        }
        Reply::Conflict { mir, place } => {
            out.push_all(&[number, b" ", &mir.0, b" P41"])?;
            put_number(alloc, *place as u64, 8, out)?;
            out.push(b"\n")
        }
        Reply::Refused { mir, fault } => put_refused(number, mir, fault, out),
        Reply::Unrouted { mir, code } => put_unrouted(number, mir, code, out),
    }
}

/// The line of the `n`-th message, as in the report: its number, its message's MIR or 28 dashes, and what became of it.
///
/// The history is legal for the accounts, and has the place that the reply names. `Memory`: there was no room for the line.
pub fn reply_line(
    alloc: Global,
    a: &Accounts,
    h: &History,
    n: u64,
    reply: &Reply,
) -> Result<Text, Memory>
    requires legal { IsLegal a.now h.now.entries }
    requires place { NamesPlace h.now.entries reply.now }
    ensures { IfOk result (λ line. line ≡ reply_line a.now h.now.entries n reply.now) }
{
    let mut line = Text::from_bytes(alloc, b"")?;
    put_reply_line(alloc, a, h, n, reply, &mut Decimal::new(), &mut line)?;
    Ok(line)
}

/// Adds the counts of messages and entries.
pub(crate) fn put_counts(
    alloc: Global,
    messages: u64,
    entries: u64,
    out: &mut Text,
) -> Result<(), Memory>
    ensures { OnOk result (out.new ≡ out.old ++ count_line messages entries) }
{
    out.push(b"MESSAGES")?;
    put_number(alloc, messages, 6, out)?;
    put_word(b"ENTRIES", out)?;
    put_number(alloc, entries, 8, out)?;
    out.push(b"\n")
}

/// Adds the end of a report, after the lines of its replies: the counts of messages and entries, and the totals.
///
/// The history is legal for the accounts. `Memory`: there was no room for it; then a part of it may have been added.
pub fn put_report_end(
    alloc: Global,
    a: &Accounts,
    h: &History,
    messages: u64,
    out: &mut Text,
) -> Result<(), Memory>
    requires { IsLegal a.now h.now.entries }
    ensures text { OnOk result (out.new ≡ out.old ++ report_end a.now h.now.entries messages) }
    // the debits and the credits of each of its totals are equal
    ensures even { OnOk result (DebitsEqualCredits a.now h.now.entries) }
    // the currencies of its totals are those of the accounts, each once, in byte order
    ensures currencies { OnOk result (AreCurrencies (accounts_of a.now) (currencies_of [] (accounts_of a.now))) }
{
    put_counts(alloc, messages, h.len() as u64, out)?;
    put_totals(alloc, a, h, out)
}

/// The report of a run: a line for each reply, with its number and its message's MIR or 28 dashes; the counts of
/// messages and entries; and for each currency of the accounts, in byte order, the debits and credits of all booked
/// entries (docs/operating.md, "The report").
///
/// The history is legal for the accounts, and has each place that a reply names. `Memory`: there was no room for the text.
pub fn report(alloc: Global, a: &Accounts, h: &History, replies: &[Reply]) -> Result<Text, Memory>
    requires legal { IsLegal a.now h.now.entries }
    requires places { All (NamesPlace h.now.entries) replies.now }
    ensures text { IfOk result (λ text. text ≡ report_of a.now h.now.entries replies.now) }
    // the debits and the credits of each of its totals are equal
    ensures even { OnOk result (DebitsEqualCredits a.now h.now.entries) }
    // the currencies of its totals are those of the accounts, each once, in byte order
    ensures currencies { OnOk result (AreCurrencies (accounts_of a.now) (currencies_of [] (accounts_of a.now))) }
{
    let mut out = Text::with_room(alloc, b"", replies.len().saturating_mul(LINE_ROOM))?;
    let mut room = Decimal::new();
    for (at, reply) in replies.iter().enumerate() {
        put_reply_line(alloc, a, h, at as u64 + 1, reply, &mut room, &mut out)?;
    }
    put_report_end(alloc, a, h, replies.len() as u64, &mut out)?;
    Ok(out)
}
