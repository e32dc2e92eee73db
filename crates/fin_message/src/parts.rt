//! What the blocks of a message say.

ghost use Rattle.std.specs.Prelude.{◌≡◌, ◌==◌, option_map, position};
ghost use Rattle.corr_ids.specs.Address.{bank_of};
ghost use Rattle.fin_blocks.specs.Forms.{mir_in};
ghost use Rattle.fin_message.specs.Parts.{envelope_of, has_trailer as has_trailer_of, partner_of, type_of as type_in, uetr_in, subblock_under};

use crate::message::no_envelope;
use corr_ids::{Bic, Envelope, LtAddress, Mir, Uetr, read_uetr};
use corr_text::Text;
use fin_blocks::{App, Blocks};

/// The type of a message, as 103.
pub fn type_of(app: &App) -> u16
    ensures { result ≡ type_in app.now }
{
    match app {
        App::Received { mt, .. } | App::Sent { mt, .. } => *mt,
    }
}

/// The reference of a message of output form; none of one of input form.
pub fn mir_of(app: &App) -> Option<Mir>
    ensures { result ≡ mir_in app.now }
{
    match app {
        App::Received { mir, .. } => Some(*mir),
        App::Sent { .. } => None,
    }
}

fn bank(terminal: LtAddress) -> Bic
    ensures { result ≡ bank_of terminal }
{
    let head = terminal.head;
    let branch = terminal.branch;
    Bic { head, branch }
}

/// The bank that block 2 names.
pub fn partner(app: &App) -> Bic
    ensures { result ≡ partner_of app.now }
{
    match app {
        App::Received { mir, .. } => bank(mir.sender()),
        App::Sent { to, .. } => bank(*to),
    }
}

/// Whether block 5 has a trailer of this code.
pub fn has_trailer(blocks: &Blocks, code: [u8; 3]) -> bool
    ensures { result ≡ has_trailer_of code blocks.now }
{
    blocks.trailers.as_slice().iter().any(|c| *c == code)
}

fn subblock(user: &[(u16, Text)], number: u16) -> Option<usize>
    ensures { result ≡ position (λ s. s.0 == number) user.now }
{
    user.iter().position(|s| s.0 == number)
}

/// What block 3 holds under a number; none where it has no such subblock.
pub fn user_text(blocks: &Blocks, number: u16) -> Option<&[u8]>
    ensures { option_map (λ text. text.now) result ≡ subblock_under number blocks.now.user }
{
    let user = blocks.user.as_slice();
    let at = subblock(user, number)?;
    Some(user[at].1.bytes())
}

fn transaction(blocks: &Blocks) -> Option<Uetr>
    ensures { result ≡ uetr_in blocks.now }
{
    read_uetr(user_text(blocks, 121)?)
}

/// Puts who sent a message to whom, under which references, into a place.
pub fn fill_envelope(blocks: &Blocks, envelope: &mut Envelope)
    ensures { envelope.new ≡ envelope_of blocks.now }
{
    envelope.uetr = transaction(blocks);
    match &blocks.app {
        App::Received { mir, .. } => {
            envelope.mir = Some(*mir);
            envelope.sender = bank(mir.sender());
            envelope.receiver = bank(blocks.own);
        }
        App::Sent { to, .. } => {
            envelope.mir = None;
            envelope.sender = bank(blocks.own);
            envelope.receiver = bank(*to);
        }
    }
}

/// Who sent a message to whom, under which references.
pub fn envelope(blocks: &Blocks) -> Envelope
    ensures { result ≡ envelope_of blocks.now }
{
    let mut envelope = no_envelope();
    fill_envelope(blocks, &mut envelope);
    envelope
}
