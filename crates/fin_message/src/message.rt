//! What a valid message says.

ghost use Rattle.std.specs.Prelude.{◌≡◌, [], IsTrue};
ghost use Rattle.fin_message.specs.Filling.{is_transfer};
ghost use Rattle.fin_message.specs.inner.Filling.{with_text};
ghost use Rattle.fin_message.specs.Sound.{lines_in};

use corr_ids::{Bic, Envelope};
use corr_text::{Text, put};
use mt9_advice::{Mt900, Mt910};
use mt103::{Mt103, blank};
use mt202cov::Mt202Cov;
use mt950::Page950;
use std::alloc::Global;
use std::mem;

/// A valid message, by its type.
#[derive(Debug, Drop)]
pub enum Message {
    /// An MT103: who sent it to whom, the lines of block 4 (each ended by CR LF), and what they say.
    Transfer(Envelope, Text, Mt103),
    /// An MT202 COV, with the same beside it.
    Cover(Envelope, Text, Mt202Cov),
    /// An MT900, the confirmation of a debit.
    Debit(Envelope, Mt900),
    /// An MT910, the confirmation of a credit.
    Credit(Envelope, Mt910),
    /// An MT950, a page of the statement of an account.
    Page(Envelope, Page950),
}

fn no_bank() -> Bic {
    Bic {
        head: [0; 8],
        branch: [0; 3],
    }
}

/// An envelope that says nothing.
pub(crate) fn no_envelope() -> Envelope {
    Envelope {
        mir: None,
        sender: no_bank(),
        receiver: no_bank(),
        uetr: None,
    }
}

impl Message {
    /// A place for messages to be read into: a transfer that says nothing.
    pub fn blank(alloc: Global) -> Message
        ensures { IsTrue (is_transfer result) }
    {
        Message::Transfer(no_envelope(), Text::from_vec(Vec::new(alloc)), blank(alloc))
    }
}

/// Takes the text of block 4 out of a message, if it has one beside what it says: an empty one is left.
pub fn take_text(alloc: Global, message: &mut Message) -> Text
    ensures taken { result ≡ lines_in message.old }
    ensures left { message.new ≡ with_text [] message.old }
{
    let none = Text::from_vec(Vec::new(alloc));
    match message {
        Message::Transfer(_, place, _) => mem::replace(place, none),
        Message::Cover(_, place, _) => mem::replace(place, none),
        Message::Debit(_, _) | Message::Credit(_, _) | Message::Page(_, _) => none,
    }
}

/// Moves the text of block 4 into a message that has it beside what it says.
pub fn put_text(text: Text, message: &mut Message)
    ensures { message.new ≡ with_text text message.old }
{
    match message {
        Message::Transfer(_, place, _) => put(place, text),
        Message::Cover(_, place, _) => put(place, text),
        Message::Debit(_, _) | Message::Credit(_, _) | Message::Page(_, _) => {}
    }
}
