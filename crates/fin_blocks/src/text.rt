//! Block 4: the text of a message.

ghost use Rattle.std.specs.Prelude.{◌≡◌, ◌++◌, ◌∷◌, [], codes, option_map, true, IfOk, OnOk, Some};
ghost use Rattle.std.specs.Option.{option_or};
ghost use Rattle.fin_blocks.specs.Forms.{between as between_of, when};
ghost use Rattle.fin_blocks.specs.Text.{crlf, is_ended as is_ended_of, text_in, text_of};

use crate::forms::between;
use corr_text::{Memory, Text, first_line};

fn lines_between(group: &[u8]) -> Option<&[u8]>
    ensures { option_map (λ b. b.now) result
        ≡ option_or (between_of (codes "{4:" ++ crlf) (codes "-}") group.now) (between_of (codes "{4:" ++ 10 ∷ []) (codes "-}") group.now) }
{
    if let Some(lines) = between(b"{4:\r\n", b"-}", group) {
        return Some(lines);
    }
    between(b"{4:\n", b"-}", group)
}

fn is_ended(b: &[u8]) -> bool
    ensures { result ≡ is_ended_of b.now }
{
    b.is_empty() || b[b.len() - 1] == b'\n'
}

#[inline(never)]
fn copy_lines(b: &[u8], text: &mut Text) -> Result<(), Memory>
    ensures { OnOk result (text.new ≡ text_in b.now) }
{
    text.truncate(0);
    let mut rest = b;
    while !rest.is_empty() {
        let cut = first_line(rest);
        text.push(cut.line)?;
        text.push(b"\r\n")?;
        rest = cut.rest;
    }
    Ok(())
}

/// Whether each line feed has a carriage return before it.
#[inline(never)]
fn has_crlf_alone(b: &[u8]) -> bool
    ensures { result ≡ true → is_ended_of b.now ≡ true → text_in b.now ≡ b.now }
{
    if b.is_empty() {
        return true;
    }
    // to the end in each case, so that some bytes are tested at once
    let mut stray = b[0] == b'\n';
    for at in 1..b.len() {
        stray |= (b[at] == b'\n') & (b[at - 1] != b'\r');
    }
    !stray
}

/// Puts the lines of block 4 into a text, each ended by CR LF, at once where they are so already.
fn fill_lines(b: &[u8], text: &mut Text) -> Result<(), Memory>
    requires { is_ended_of b.now ≡ true }
    ensures { OnOk result (text.new ≡ text_in b.now) }
{
    if has_crlf_alone(b) {
        return text.refill(b);
    }
    copy_lines(b, text)
}

/// Whether the group is block 4: then its lines, each ended by CR LF, are put into a text.
#[tactic(auto, unfolding(crate::specs::Text::text_of))]
pub fn fill_text(group: Option<&[u8]>, text: &mut Text) -> Result<bool, Memory>
    ensures { IfOk result (λ is_text. text_of (option_map (λ b. b.now) group.entry) ≡ when is_text (Some text.new)) }
{
    let Some(block) = group else {
        return Ok(false);
    };
    match lines_between(block) {
        Some(lines) if is_ended(lines) => {
            fill_lines(lines, text)?;
            Ok(true)
        }
        _ => Ok(false),
    }
}
