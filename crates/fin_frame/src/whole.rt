//! The messages of a whole file, where they stand.

ghost use Rattle.std.specs.Prelude.{◌≡◌, ◌<◌, ◌≤◌, ◌-◌, ◌||◌, ◌++◌, ℕ, List, length, take, drop, get_or, nat_lt, true, false, if◌then◌else◌, None, IfOk, IfSome};
ghost use Rattle.std.specs.List.{list_any, slice_range};
ghost use Rattle.corr_text.specs.Braces.{is_brace};
ghost use Rattle.fin_frame.specs.File.{dollars, IsGap, IsGroupTo, IsMessage, IsCutInto, most_bytes};
ghost use Rattle.fin_frame.specs.Whole.{is_led};
ghost use Rattle.fin_frame.specs.inner.Whole.{has_group, gap_goes_on, IsFront, IsOpenGroup, IsPart, CutsNoFile};

use crate::cutter::{LEAD, MOST_BYTES};
use crate::stage::Stage;
use crate::{group, stage};
use corr_text::{List, Memory, has_brace};
use std::alloc::Global;
use std::marker::Model;

/// How many bytes the first group of most messages has, and the second.
const FIRST: usize = 29;

const SECOND: usize = 51;

/// A message where it stands in its file: at most 16,384 bytes.
#[derive(Debug, Drop)]
pub struct Framed<'a> {
    bytes: &'a [u8],
    ghost short: { length bytes.now ≤ most_bytes },
}

impl<'a> Model for Framed<'a> {
    ghost use Rattle.std.specs.Prelude.{List, ℕ};

    ghost Value = { List ℕ };

    ghost view = { λ framed. framed.bytes.now };
}

impl<'a> Framed<'a> {
    ghost use Rattle.std.specs.Prelude.{◌≤◌, length};
    ghost use Rattle.fin_frame.specs.File.{most_bytes};

    /// The bytes of the message, from the `{` of its `{1:` to the `}` of its last group.
    pub fn bytes(&self) -> &'a [u8]
        ensures bytes { result.now ≡ self.now }
        ensures short { length result.now ≤ most_bytes }
    {
        self.bytes
    }
}

/// The messages of a whole file, each where it stands; nothing is copied.
///
/// None where the file has no cut into at most `most` messages: it isn't sound, or it has more. `Memory`: there was no
/// room for the list.
pub fn cut_whole(
    alloc: Global,
    file: &[u8],
    most: usize,
) -> Result<Option<List<Framed<'_>>>, Memory>
    ensures cut { IfOk result (λ found. IfSome found (λ messages. IsCutInto file.now messages × (length messages ≤ most))) }
    ensures uncut { IfOk result (λ found. found ≡ None → (messages : List (List ℕ)) → IsCutInto file.now messages → most < length messages) }
{
    let mut messages = List::new(alloc);
    let mut rest = after_gap(file, true);
    while !rest.is_empty() {
        if !is_led(rest) {
            return Ok(None);
        }
        if messages.as_slice().len() == most {
            return Ok(None);
        }
        let Some(len) = message_len(rest) else {
            return Ok(None);
        };
        let (bytes, after) = rest.split_at(len);
        messages.push(Framed { bytes })?;
        rest = after_gap(after, false);
    }
    Ok(Some(messages))
}

/// The bytes after a gap that has no `$` where `marked`.
fn after_gap(bytes: &[u8], marked: bool) -> &[u8]
    ensures after { (gap : List ℕ) × (bytes.now ≡ gap ++ result.now) × IsGap (if marked then 0 else 1) gap × (gap_goes_on (marked || nat_lt 0 (dollars gap)) result.now ≡ false) }
{
    bytes.split_at(gap_len(bytes, marked).0).1
}

/// How many bytes of a gap are in front, without `$` where `marked`, and whether no `$` may come after them.
#[inline(never)]
pub(crate) fn gap_len(bytes: &[u8], marked: bool) -> (usize, bool)
    ensures most { result.0 ≤ length bytes.now }
    ensures gap { IsGap (if marked then 0 else 1) (take result.0 bytes.now) }
    ensures marked { result.1 ≡ (marked || nat_lt 0 (dollars (take result.0 bytes.now))) }
    ensures end { gap_goes_on result.1 (drop result.0 bytes.now) ≡ false }
{
    let mut ended = marked;
    let mut len = 0;
    while len < bytes.len() {
        match stage::between(ended, bytes[len]) {
            Some(Stage::Between { marked }) => ended = marked,
            _ => return (len, ended),
        }
        len += 1;
    }
    (len, ended)
}

/// Whether the bytes begin `{1:`.
pub(crate) fn is_led(bytes: &[u8]) -> bool
    ensures { result ≡ is_led bytes.now }
{
    bytes.starts_with(&LEAD)
}

/// Whether the bytes begin with a group that doesn't begin `{1:`.
fn has_group(bytes: &[u8]) -> bool
    ensures { result ≡ has_group bytes.now }
{
    !bytes.is_empty() && bytes[0] == b'{' && !is_led(bytes)
}

/// How long the message is that the bytes begin with. None where it isn't whole, or too long.
fn message_len(bytes: &[u8]) -> Option<usize>
    requires led { is_led bytes.now ≡ true }
    ensures whole { IfSome result (λ len. (len ≤ length bytes.now) × IsMessage (take len bytes.now) × (has_group (drop len bytes.now) ≡ false)) }
    ensures none { result ≡ None → CutsNoFile bytes.now }
{
    match message_front(bytes) {
        Front::Whole(len) => Some(len),
        Front::Open | Front::Long => None,
    }
}

/// What bytes begin with that begin `{1:`.
pub(crate) enum Front {
    /// A message of so many bytes, after which no group of it comes.
    Whole(usize),
    /// A message that isn't whole yet: the bytes end within it, or with a part of `{1:` after it.
    Open,
    /// A message of more than 16,384 bytes.
    Long,
}

/// What the bytes begin with.
#[inline(never)]
pub(crate) fn message_front(bytes: &[u8]) -> Front
    requires led { is_led bytes.now ≡ true }
    ensures { IsFront bytes.now result }
{
    let Some(first) = group_len(bytes, FIRST) else {
        return if bytes.len() > MOST_BYTES {
            Front::Long
        } else {
            Front::Open
        };
    };
    let mut len = first;
    while len <= MOST_BYTES && has_group(&bytes[len..]) {
        let Some(next) = group_len(&bytes[len..], SECOND) else {
            return if bytes.len() > MOST_BYTES && !is_part(&bytes[len..]) {
                Front::Long
            } else {
                Front::Open
            };
        };
        len += next;
    }
    if len > MOST_BYTES {
        return Front::Long;
    }
    Front::Whole(len)
}

/// Whether the bytes are one or two of `{1:`.
pub(crate) fn is_part(bytes: &[u8]) -> bool
    ensures part { result ≡ true → IsPart bytes.now }
    ensures other { result ≡ false → IsPart bytes.now → ⊥ }
{
    match bytes {
        [b'{'] | [b'{', b'1'] => true,
        _ => false,
    }
}

/// Whether a brace ends so many bytes, and none stands after the first and before it.
#[inline(always)]
fn is_plain_to(bytes: &[u8], len: usize) -> bool
    requires { 2 ≤ len }
    ensures { result ≡ true → (len ≤ length bytes.now) × (get_or bytes.now (len - 1) 0 ≡ 125) × (list_any is_brace (slice_range bytes.now 1 (len - 1)) ≡ false) }
{
    len <= bytes.len() && bytes[len - 1] == b'}' && !has_brace(&bytes[1..len - 1])
}

/// How long the group is that the bytes begin with: mostly so many bytes. None where it has no end among the bytes, or none among
/// as many as a message may have.
#[inline(always)]
fn group_len(bytes: &[u8], mostly: usize) -> Option<usize>
    requires two { 2 ≤ mostly }
    requires some { 0 < length bytes.now }
    requires begun { get_or bytes.now 0 0 ≡ 123 }
    ensures whole { IfSome result (λ len. (len ≤ length bytes.now) × IsGroupTo 0 (take len bytes.now)) }
    ensures none { result ≡ None → IsOpenGroup bytes.now }
{
    if is_plain_to(bytes, mostly) {
        return Some(mostly);
    }
    let reach = bytes.len().min(MOST_BYTES + 1);
    let (len, left) = group::within(&bytes[1..reach], 1);
    if left > 0 {
        return None;
    }
    Some(1 + len)
}
