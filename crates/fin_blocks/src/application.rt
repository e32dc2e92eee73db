//! Block 2: what a message is, and where it comes from or goes to.

ghost use Rattle.std.specs.Prelude.{◌≡◌, ◌≤◌, IsTrue, length, option_map};
ghost use Rattle.fin_blocks.specs.Forms.{app_of, is_priority as is_priority_of, is_received as is_received_of, is_sent as is_sent_of, is_sent_length as is_sent_length_of, mir_in, received_in, output_form_of, sent_in, input_form_of};

use crate::blocks::App;
use crate::forms::{inside, three_digits};
use corr_ids::{Mir, read_lt, read_mir};
use corr_text::all_digits;

fn is_priority(b: u8) -> bool
    ensures { result ≡ is_priority_of b }
{
    b == b'S' || b == b'U' || b == b'N'
}

#[tactic(auto, unfolding(crate::specs::Forms::is_received))]
fn is_received(b: &[u8]) -> bool
    ensures value { result ≡ is_received_of b.now }
    ensures long { IsTrue result → length b.now ≡ 46 }
{
    b.len() == 46 && all_digits(&b[3..7]) && all_digits(&b[35..45]) && is_priority(b[45])
}

#[tactic(auto, unfolding(crate::specs::Forms::is_sent_length))]
fn is_sent_length(long: usize) -> bool
    ensures value { result ≡ is_sent_length_of long }
    ensures least { IsTrue result → 16 ≤ long }
{
    long == 16 || long == 17 || long == 19 || long == 20
}

#[tactic(auto, unfolding(crate::specs::Forms::is_sent))]
fn is_sent(b: &[u8]) -> bool
    ensures value { result ≡ is_sent_of b.now }
    ensures long { IsTrue result → 16 ≤ length b.now }
{
    is_sent_length(b.len()) && is_priority(b[15]) && all_digits(&b[16..])
}

#[tactic(auto, unfolding(crate::specs::Forms::received_in))]
fn received_inside(b: &[u8]) -> Option<App>
    ensures { result ≡ received_in b.now }
{
    if !is_received(b) {
        return None;
    }
    let mt = three_digits(&b[..3])?;
    let mir = read_mir(&b[7..35])?;
    Some(App::Received { mt, mir })
}

#[tactic(auto, unfolding(crate::specs::Forms::sent_in))]
fn sent_inside(b: &[u8]) -> Option<App>
    ensures { result ≡ sent_in b.now }
{
    if !is_sent(b) {
        return None;
    }
    let mt = three_digits(&b[..3])?;
    let to = read_lt(&b[3..15])?;
    Some(App::Sent { mt, to })
}

fn read_received(group: Option<&[u8]>) -> Option<App>
    ensures { result ≡ output_form_of (option_map (λ b. b.now) group.entry) }
{
    received_inside(inside(b"{2:O", group)?)
}

fn read_sent(group: Option<&[u8]>) -> Option<App>
    ensures { result ≡ input_form_of (option_map (λ b. b.now) group.entry) }
{
    sent_inside(inside(b"{2:I", group)?)
}

/// Block 2 of a message, if the group is one.
pub fn read_app(group: Option<&[u8]>) -> Option<App>
    ensures { result ≡ app_of (option_map (λ b. b.now) group.entry) }
{
    match read_received(group) {
        Some(app) => Some(app),
        None => read_sent(group),
    }
}

/// The reference of a received message; none of a sent one.
pub fn mir_of(app: &App) -> Option<Mir>
    ensures { result ≡ mir_in app.now }
{
    match app {
        App::Received { mir, .. } => Some(*mir),
        App::Sent { .. } => None,
    }
}
