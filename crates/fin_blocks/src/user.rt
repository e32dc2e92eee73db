//! Block 3: subblocks of the sender's and the receiver's own.

ghost use Rattle.std.specs.Prelude.{◌≡◌, ◌==◌, ◌<◌, codes, map, option_map, IfOk, IfSome};
ghost use Rattle.std.specs.List.{All, list_any};
ghost use Rattle.fin_blocks.specs.Groups.{groups_of};
ghost use Rattle.fin_blocks.specs.Forms.{each_of, inside as inside_of};
ghost use Rattle.fin_blocks.specs.User.{are_distinct as are_distinct_of, may_hold as may_hold_of, subblock_of, subblocks_in};
ghost use Rattle.fin_blocks.specs.Blocks.{optional};

use crate::forms::{inside, read_tagged, three_digits};
use crate::groups::next_group;
use corr_ids::read_uetr;
use corr_text::{List, Memory, Text};
use std::alloc::Global;

/// Up to how many subblocks a search costs less than a table.
const FEW: usize = 8;

/// How many numbers a subblock may have: 0 to 999.
const NUMBERS: usize = 1000;

#[derive(Clone, Copy)]
struct Subblock<'a> {
    number: u16,
    text: &'a [u8],
}

fn may_hold(number: u16, text: &[u8]) -> bool
    ensures { result ≡ may_hold_of number text.now }
{
    number != 121 || read_uetr(text).is_some()
}

#[tactic(auto, unfolding(crate::specs::User::subblock_of))]
fn read_subblock(group: Option<&[u8]>) -> Option<Subblock<'_>>
    ensures value { option_map (λ s. (s.number, s.text.now)) result ≡ subblock_of (option_map (λ b. b.now) group.entry) }
    ensures bound { IfSome result (λ s. s.number < 1000) }
{
    let piece = read_tagged(group)?;
    let number = three_digits(piece.tag)?;
    if !may_hold(number, piece.text) {
        return None;
    }
    Some(Subblock {
        number,
        text: piece.text,
    })
}

fn subblocks(alloc: Global, b: &[u8]) -> Result<Option<List<(u16, Text)>>, Memory>
    ensures value { IfOk result (λ o. o ≡ each_of subblock_of (groups_of b.now)) }
    ensures bound { IfOk result (λ o. IfSome o (All (λ s. s.0 < 1000))) }
{
    let mut user = List::new(alloc);
    let mut rest = b;
    while !rest.is_empty() {
        let piece = next_group(rest);
        let Some(sub) = read_subblock(piece.group) else {
            return Ok(None);
        };
        let text = Text::from_bytes(alloc, sub.text)?;
        user.push((sub.number, text))?;
        rest = piece.rest;
    }
    Ok(Some(user))
}

fn has_number(user: &[(u16, Text)], number: u16) -> bool
    ensures { result ≡ list_any (λ s. s.0 == number) user.now }
{
    user.iter().any(|s| s.0 == number)
}

/// Whether the numbers of a few subblocks differ: each is looked for among those before it.
fn are_few_distinct(user: &[(u16, Text)]) -> bool
    ensures { result ≡ are_distinct_of (map (λ s. s.0) user.now) }
{
    for (at, sub) in user.iter().enumerate() {
        if has_number(&user[..at], sub.0) {
            return false;
        }
    }
    true
}

/// Whether the numbers of subblocks differ, by a table of those that were seen.
#[inline(never)]
fn are_many_distinct(user: &[(u16, Text)]) -> bool
    requires { All (λ s. s.0 < 1000) user.now }
    ensures { result ≡ are_distinct_of (map (λ s. s.0) user.now) }
{
    let mut seen = [false; NUMBERS];
    for sub in user {
        let number = sub.0 as usize;
        if seen[number] {
            return false;
        }
        seen[number] = true;
    }
    true
}

fn are_distinct(user: &[(u16, Text)]) -> bool
    requires { All (λ s. s.0 < 1000) user.now }
    ensures { result ≡ are_distinct_of (map (λ s. s.0) user.now) }
{
    if user.len() <= FEW {
        return are_few_distinct(user);
    }
    are_many_distinct(user)
}

#[tactic(auto, unfolding(crate::specs::User::subblocks_in))]
fn distinct_subblocks(alloc: Global, b: &[u8]) -> Result<Option<List<(u16, Text)>>, Memory>
    ensures { IfOk result (λ o. o ≡ subblocks_in b.now) }
{
    let Some(user) = subblocks(alloc, b)? else {
        return Ok(None);
    };
    let subs = user.as_slice();
    if subs.is_empty() || !are_distinct(subs) {
        return Ok(None);
    }
    Ok(Some(user))
}

/// The subblocks of block 3: an empty list where there is no group or another, none where it is block 3 and not of its form.
pub fn read_user(alloc: Global, group: Option<&[u8]>) -> Result<Option<List<(u16, Text)>>, Memory>
    ensures { IfOk result (λ o. o ≡ optional subblocks_in (inside_of (codes "{3:") (option_map (λ b. b.now) group.entry))) }
{
    match inside(b"{3:", group) {
        Some(b) => distinct_subblocks(alloc, b),
        None => Ok(Some(List::new(alloc))),
    }
}
