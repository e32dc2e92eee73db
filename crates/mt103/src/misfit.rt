//! The tests on the instructions of a message together.

ghost use Rattle.std.specs.Prelude.{◌≡◌, ◌≤◌, ◌<◌, IfSome, [], length, option_map, position};
ghost use Rattle.std.specs.Str.{bytes_eq};
ghost use Rattle.fin_fields.specs.Fields.{most_text_lines};
ghost use Rattle.mt103.specs.Codes.{instructions};
ghost use Rattle.mt103.specs.Instructions.{d98, e46, first_given, fits_badly, instr_fault, misfits, rank_of};

use crate::codes::{D98, E46};
use crate::instruction::{INSTRUCTIONS, Instr};
use corr_text::{Code, Fault};

/// What an instruction may not be after an earlier one.
#[derive(Clone, Copy)]
pub enum Misfit {
    /// Of the same code.
    Repeated,
    /// Of a code that stands before the earlier one's in the list.
    Early,
}

fn place_in_list(code: &[u8; 4]) -> Option<usize>
    ensures { result ≡ position (λ c. bytes_eq c code.now) instructions }
{
    INSTRUCTIONS.iter().position(|c| *c == *code)
}

fn rank(code: &[u8; 4]) -> usize
    ensures { result ≡ rank_of code.now }
{
    match place_in_list(code) {
        Some(at) => at,
        None => INSTRUCTIONS.len(),
    }
}

fn fits_badly(misfit: Misfit, earlier: &Instr, here: &Instr) -> bool
    ensures { result ≡ fits_badly misfit earlier.now here.now }
{
    match misfit {
        Misfit::Repeated => earlier.code == here.code,
        Misfit::Early => rank(&here.code) < rank(&earlier.code),
    }
}

fn misfits(misfit: Misfit, before: &[Instr], here: &Instr) -> bool
    ensures { result ≡ misfits misfit before.now here.now }
{
    before
        .iter()
        .any(|earlier| fits_badly(misfit, earlier, here))
}

fn first_misfit(misfit: Misfit, instrs: &[Instr]) -> Option<usize>
    ensures value { result ≡ first_given (misfits misfit) [] instrs.now }
    ensures within { IfSome result (λ i. i < length instrs.now) }
{
    for (at, here) in instrs.iter().enumerate() {
        if misfits(misfit, &instrs[..at], here) {
            return Some(at);
        }
    }
    None
}

fn fault_at(code: Code, at: Option<usize>) -> Option<Fault>
    requires { IfSome at (λ i. i < most_text_lines) }
    ensures { result ≡ option_map (instr_fault code) at }
{
    match at {
        Some(at) => Some(Fault {
            code,
            tag: *b"23E",
            nth: at as u16 + 1,
        }),
        None => None,
    }
}

/// The first instruction whose code came before: E46 with the tag 23E and its occurrence. None where there is no such one.
pub fn e46(instrs: &[Instr]) -> Option<Fault>
    requires { length instrs.now ≤ most_text_lines }
    ensures { result ≡ e46 instrs.now }
{
    fault_at(E46, first_misfit(Misfit::Repeated, instrs))
}

/// The first instruction whose code stands before that of an earlier one in the list of codes: D98 with the tag 23E and its
/// occurrence. None where there is no such one.
pub fn d98(instrs: &[Instr]) -> Option<Fault>
    requires { length instrs.now ≤ most_text_lines }
    ensures { result ≡ d98 instrs.now }
{
    fault_at(D98, first_misfit(Misfit::Early, instrs))
}
