//! The tests of a message's blocks against the home bank and the table of banks.

ghost use Rattle.std.specs.Prelude.{◌≡◌, codes, option_map};
ghost use Rattle.std.specs.Str.{bytes_eq};
ghost use Rattle.corr_text.specs.First.{first_of};
ghost use Rattle.fin_message.specs.Heading.{fits_validation as fits, has_form as has_form_of, heading_tests, is_type as is_type_of};

use crate::codes::{P07, P08, P09, P10, P11, P12, P13};
use crate::direction::Direction;
use crate::fault::at_block;
use crate::parts::{has_trailer, partner, type_of, user_text};
use corr_ids::Bic;
use corr_text::Fault;
use fin_blocks::{App, Blocks};
use ref_tables::RefTables;

fn has_form(way: Direction, app: &App) -> bool
    ensures { result ≡ has_form_of way app.now }
{
    match (way, app) {
        (Direction::Received, App::Received { .. }) => true,
        (Direction::Sent, App::Sent { .. }) => true,
        _ => false,
    }
}

fn is_type(mt: u16) -> bool
    ensures { result ≡ is_type_of mt }
{
    mt == 103 || mt == 202 || mt == 900 || mt == 910 || mt == 950
}

fn is_cover(flag: &[u8]) -> bool
    ensures { result ≡ bytes_eq flag.now (codes "COV") }
{
    flag == b"COV".as_slice()
}

/// Whether field 119 of block 3 is as the type wants it: none in 103, `COV` in 202.
fn fits_validation(mt: u16, flag: Option<&[u8]>) -> bool
    ensures { result ≡ fits mt (option_map (λ text. text.now) flag.entry) }
{
    match mt {
        103 => flag.is_none(),
        202 => match flag {
            Some(text) => is_cover(text),
            None => false,
        },
        _ => true,
    }
}

/// The first fault of a message's blocks, none where no test of them holds.
pub fn heading_fault(way: Direction, home: &Bic, t: &RefTables, blocks: &Blocks) -> Option<Fault>
    ensures { result ≡ first_of (heading_tests way home.now t.now blocks.now) }
{
    let mt = type_of(&blocks.app);
    if !has_form(way, &blocks.app) {
        return Some(at_block(P07, *b"B2 "));
    }
    if blocks.own.head != home.head {
        return Some(at_block(P08, *b"B1 "));
    }
    if has_trailer(blocks, *b"TNG") {
        return Some(at_block(P09, *b"B5 "));
    }
    if has_trailer(blocks, *b"PDE") {
        return Some(at_block(P10, *b"B5 "));
    }
    if !is_type(mt) {
        return Some(at_block(P11, *b"B2 "));
    }
    if !t.has_bic(&partner(&blocks.app).head) {
        return Some(at_block(P12, *b"B2 "));
    }
    if !fits_validation(mt, user_text(blocks, 119)) {
        return Some(at_block(P13, *b"B3 "));
    }
    None
}
