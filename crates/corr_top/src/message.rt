//! A message, read to the pay that it asks for.

ghost use Rattle.std.specs.Prelude.{◌≡◌, ◌≤◌, Err, IfErr, IfOk, IsSome, Ok, OnOk, Some, length};
ghost use Rattle.day_model.specs.Fit.{FitsAccounts};
ghost use Rattle.day_model.specs.Shape.{HasShape, most_text};
ghost use Rattle.fin_frame.specs.File.{most_bytes};
ghost use Rattle.fin_message.specs.Sound.{Goes, HasEnvelope, TextSays, lines_in};
ghost use Rattle.fin_message.specs.declared.direction.Direction.TheVariants.{Received};
ghost use Rattle.pay_plan.specs.Plan.{mir_of_envelope, plan_of};
ghost use Rattle.pay_plan.specs.Readable.{IsSomeReading, IsWritable};
ghost use Rattle.corr_top.specs.inner.Asking.{IsAsking, IsWritten, pay_asked};
ghost use Rattle.corr_top.specs.inner.Asks.{unplaced};
ghost use Rattle.corr_top.specs.Message.{pay_asked_of, pay_in, reply_for, unrouted};
ghost use Rattle.corr_top.specs.inner.Replies.{FailsAs};

use crate::directory::Directory;
use corr_ids::{Envelope, Mir};
use corr_text::{Code, Fault, Memory, Text};
use day_model::{Accounts, Pay, Reply};
use fin_layout::Found;
use fin_message::{Message, MessageFault, verdict_into};
use pay_plan::{Ask, Asked, Charged, accounts_of, asked_of, pay_on};
use std::alloc::Global;
use std::mem;

/// An advice or a page of a statement: it tells of an account and asks for no pay.
pub const P37: Code = Code(*b"P37");

/// Why a message gives no pay.
#[derive(Clone, Copy)]
pub enum NoPay {
    /// It fails this test.
    Refused { mir: Option<Mir>, fault: Fault },
    /// It is valid and has no route, by this code.
    Unrouted { mir: Mir, code: Code },
}

/// Why no pay is read: the message gives none, or memory ran out.
#[derive(Clone, Copy)]
pub enum Stop {
    NoPay(NoPay),
    Memory,
}

impl From<MessageFault> for Stop {
    ghost use Rattle.corr_top.specs.inner.Replies.{stop_of_verdict};

    ghost from_gives = { λ fault stop. stop ≡ stop_of_verdict fault };

    fn from(fault: MessageFault) -> Stop {
        match fault {
            MessageFault::Refused { mir, fault } => Stop::NoPay(NoPay::Refused { mir, fault }),
            MessageFault::Memory => Stop::Memory,
        }
    }
}

/// The reply to a message that gives no pay.
pub fn reply_for(why: NoPay) -> Reply
    ensures { result ≡ reply_for why }
{
    match why {
        NoPay::Refused { mir, fault } => Reply::Refused { mir, fault },
        NoPay::Unrouted { mir, code } => Reply::Unrouted { mir, code },
    }
}

/// The reference of a received message.
pub fn reference(envelope: &Envelope) -> Mir
    requires { IsSome envelope.now.mir }
    ensures value { result ≡ mir_of_envelope envelope.now }
    ensures there { envelope.now.mir ≡ Some result }
{
    envelope.mir.unwrap()
}

/// A message that asks for a pay and has one: its reference, its envelope, the text that its pay keeps, what it asks of the books, and
/// the accounts that it has, with what it is charged.
#[derive(Drop)]
pub struct Asking<'m> {
    pub mir: Mir,
    pub envelope: &'m Envelope,
    pub text: Text,
    pub asked: Asked<'m>,
    pub charged: Charged,
}

impl<'m> Asking<'m> {
    /// The pay. `Memory`: there was no room for it.
    pub fn pay(self, alloc: Global, accounts: &Accounts) -> Result<Pay, Memory>
        requires { IsAsking accounts.now self }
        ensures value { IfOk result (λ pay. pay ≡ pay_asked accounts.now self.entry) }
        ensures fits { IfOk result (FitsAccounts accounts.now) }
        ensures shape { IsWritten self.entry → IfOk result HasShape }
    {
        let Asking {
            mir,
            envelope,
            text,
            asked,
            charged,
        } = self;
        pay_on(alloc, mir, envelope, text, &asked, &charged, accounts)
    }
}

/// What a message asks, on the accounts that it has, with its text, which is taken; or the code with which it has none. Takes no memory.
pub fn route_ask<'m>(
    alloc: Global,
    directory: &Directory,
    accounts: &Accounts,
    envelope: &'m Envelope,
    text: &mut Text,
    ask: Ask<'m>,
) -> Result<Asking<'m>, Code>
    requires received { IsSome envelope.now.mir }
    requires read { IsSomeReading ask }
    ensures asks { IfOk result (IsAsking accounts.now) }
    ensures plan { IfOk result (λ asking. plan_of envelope.now text.old (unplaced ask.entry) directory.now.ssi directory.now.charges accounts.now ≡ Ok (pay_asked accounts.now asking)) }
    ensures written { IsWritable envelope.now text.old → IfOk result IsWritten }
    ensures refused { IfErr result (λ code. plan_of envelope.now text.old (unplaced ask.entry) directory.now.ssi directory.now.charges accounts.now ≡ Err code) }
{
    let asked = asked_of(accounts.home(), ask);
    match accounts_of(
        envelope,
        ask,
        &asked,
        &directory.ssi,
        accounts,
        &directory.charges,
    ) {
        Ok(charged) => Ok(Asking {
            mir: reference(envelope),
            envelope,
            text: mem::replace(text, Text::from_vec(Vec::new(alloc))),
            asked,
            charged,
        }),
        Err(code) => Err(code),
    }
}

/// The same, or why the message gives no pay.
fn route_received<'m>(
    alloc: Global,
    directory: &Directory,
    accounts: &Accounts,
    envelope: &'m Envelope,
    text: &mut Text,
    ask: Ask<'m>,
) -> Result<Asking<'m>, NoPay>
    requires received { IsSome envelope.now.mir }
    requires read { IsSomeReading ask }
    ensures asks { IfOk result (IsAsking accounts.now) }
    ensures pay { IfOk result (λ asking. unrouted envelope.now (plan_of envelope.now text.old (unplaced ask.entry) directory.now.ssi directory.now.charges accounts.now) ≡ Ok (pay_asked accounts.now asking)) }
    ensures written { IsWritable envelope.now text.old → IfOk result IsWritten }
    ensures refused { IfErr result (λ why. unrouted envelope.now (plan_of envelope.now text.old (unplaced ask.entry) directory.now.ssi directory.now.charges accounts.now) ≡ Err why) }
{
    match route_ask(alloc, directory, accounts, envelope, text, ask) {
        Ok(asking) => Ok(asking),
        Err(code) => Err(NoPay::Unrouted {
            mir: reference(envelope),
            code,
        }),
    }
}

/// What a valid message asks, on the accounts that it has, or why it gives no pay. An advice and a page of a statement ask for none.
/// Takes no memory.
pub fn route_message<'m>(
    alloc: Global,
    directory: &Directory,
    accounts: &Accounts,
    message: &'m mut Message,
) -> Result<Asking<'m>, NoPay>
    requires received { Goes Received message.old × TextSays directory.now.tables message.old × HasEnvelope message.old }
    requires short { length (lines_in message.old) ≤ most_text }
    ensures asks { IfOk result (IsAsking accounts.now) }
    ensures pay { IfOk result (λ asking. pay_in directory.now accounts.now message.old ≡ Ok (pay_asked accounts.now asking)) }
    ensures written { IfOk result IsWritten }
    ensures refused { IfErr result (λ why. pay_in directory.now accounts.now message.old ≡ Err why) }
{
    match message {
        Message::Transfer(envelope, text, transfer) => {
            route_received(
                alloc,
                directory,
                accounts,
                envelope,
                text,
                Ask::Transfer(transfer),
            )
        }
        Message::Cover(envelope, text, cover) => {
            route_received(
                alloc,
                directory,
                accounts,
                envelope,
                text,
                Ask::Cover(cover),
            )
        }
        Message::Debit(envelope, _) | Message::Credit(envelope, _) | Message::Page(envelope, _) => {
            Err(NoPay::Unrouted {
                mir: reference(envelope),
                code: P37,
            })
        }
    }
}

/// Reads a message of at most 16,384 bytes into `room`, or tells why it gives no pay: then `room` may say anything. `found` is room
/// for the places of its fields.
#[tactic(auto, unfolding(crate::specs::Message::pay_asked_of))]
pub fn read_message(
    alloc: Global,
    directory: &Directory,
    accounts: &Accounts,
    b: &[u8],
    found: &mut Found,
    room: &mut Message,
) -> Result<(), Stop>
    requires { length b.now ≤ most_bytes }
    ensures stopped { IfErr result (λ stop. FailsAs stop (pay_asked_of directory.now accounts.now b.now)) }
    ensures read { OnOk result (pay_asked_of directory.now accounts.now b.now ≡ pay_in directory.now accounts.now room.new) }
    ensures received { OnOk result (Goes Received room.new × TextSays directory.now.tables room.new × HasEnvelope room.new) }
    ensures short { OnOk result (length (lines_in room.new) ≤ most_text) }
{
    verdict_into(alloc, b, accounts.home(), &directory.tables, found, room)?;
    Ok(())
}
