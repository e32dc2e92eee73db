//! The rules on instructions: 23E beside 23B, 56a, 57a and 59a.

ghost use Rattle.std.specs.Prelude.{◌≡◌, ◌≤◌, ◌<◌, ◌||◌, IfSome, length};
ghost use Rattle.fin_fields.specs.Fields.{most_text_lines};
ghost use Rattle.mt103_rules.specs.Instructions.{first_barred, has_instr, is_priority_instruction};
ghost use Rattle.mt103_rules.specs.Rules.{e01, e02, e18, e44, e45};

use crate::broken::broken;
use crate::codes::{E01, E02, E18, E44, E45};
use crate::operation::{is_op, is_standard};
use crate::parties::has_account;
use corr_text::Fault;
use mt103::{Instr, Mt103};

// Whether a priority payment (SPRI) may have this instruction.
fn is_priority(instr: &Instr) -> bool
    ensures { result ≡ is_priority_instruction instr.now }
{
    instr.code == *b"SDVA"
        || instr.code == *b"TELB"
        || instr.code == *b"PHOB"
        || instr.code == *b"INTC"
}

fn first_barred(instrs: &[Instr]) -> Option<usize>
    ensures place { result ≡ first_barred instrs.now }
    ensures within { IfSome result (λ i. i < length instrs.now) }
{
    instrs.iter().position(|instr| !is_priority(instr))
}

fn has_instr(code: &[u8; 4], instrs: &[Instr]) -> bool
    ensures { result ≡ has_instr code.now instrs.now }
{
    instrs.iter().any(|instr| instr.code == *code)
}

/// SPRI has no other 23E than SDVA, TELB, PHOB and INTC.
#[tactic(auto, unfolding(crate::specs::Rules::e01))]
pub fn e01(m: &Mt103) -> Option<Fault>
    requires few { length m.now.instrs ≤ most_text_lines }
    ensures { result ≡ e01 m.now }
{
    if !is_op(m, b"SPRI") {
        return None;
    }
    match first_barred(m.instrs.as_slice()) {
        Some(at) => Some(Fault {
            code: E01,
            tag: *b"23E",
            nth: at as u16 + 1,
        }),
        None => None,
    }
}

/// SSTD and SPAY have no 23E.
#[tactic(auto, unfolding(crate::specs::Rules::e02))]
pub fn e02(m: &Mt103) -> Option<Fault>
    ensures { result ≡ e02 m.now }
{
    let has_any = !m.instrs.as_slice().is_empty();
    broken(is_standard(m) && has_any, E02, *b"23E", 1)
}

/// CHQB stands without an account in 59a.
#[tactic(auto, unfolding(crate::specs::Rules::e18))]
pub fn e18(m: &Mt103) -> Option<Fault>
    ensures { result ≡ e18 m.now }
{
    let is_cheque = has_instr(b"CHQB", m.instrs.as_slice());
    broken(is_cheque && has_account(&m.payee), E18, *b"59 ", 1)
}

/// TELI and PHOI stand with 56a.
#[tactic(auto, unfolding(crate::specs::Rules::e44))]
pub fn e44(m: &Mt103) -> Option<Fault>
    ensures { result ≡ e44 m.now }
{
    let instrs = m.instrs.as_slice();
    let names_it = has_instr(b"TELI", instrs) || has_instr(b"PHOI", instrs);
    broken(names_it && m.p56.is_none(), E44, *b"56 ", 0)
}

/// TELE and PHON stand with 57a.
#[tactic(auto, unfolding(crate::specs::Rules::e45))]
pub fn e45(m: &Mt103) -> Option<Fault>
    ensures { result ≡ e45 m.now }
{
    let instrs = m.instrs.as_slice();
    let names_it = has_instr(b"TELE", instrs) || has_instr(b"PHON", instrs);
    broken(names_it && m.p57.is_none(), E45, *b"57 ", 0)
}
