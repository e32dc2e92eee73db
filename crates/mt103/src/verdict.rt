//! An MT103 read from its fields.

ghost use Rattle.std.specs.Prelude.{◌≡◌, ◌≤◌, [], ◌∷◌, All, IfErr, IfOk, IfSome, IsTrue, None, Ok, OnOk, length};
ghost use Rattle.corr_text.specs.First.{first_of};
ghost use Rattle.fin_fields.specs.Fields.{most_text_lines};
ghost use Rattle.fin_contents.specs.Money.{IsPayable};
ghost use Rattle.fin_contents.specs.Writing.{IsReadable};
ghost use Rattle.fin_fields.specs.Writing.{IsField};
ghost use Rattle.fin_layout.specs.Naming.{absent as absent_of};
ghost use Rattle.fin_layout.specs.Order.{missing_from, places_from};
ghost use Rattle.fin_layout.specs.Reading.{Fills, Gives, Tells};
ghost use Rattle.fin_layout.specs.Tests.{misplaced};
ghost use Rattle.fin_layout.specs.declared.fault.MtFault.TheVariants.{Bad};
ghost use Rattle.mt103.specs.Instructions.{d98, e46};
ghost use Rattle.mt103.specs.Message.{contents_of, field_tests, mt103_of};
ghost use Rattle.mt103.specs.declared.message.Mt103.{Mt103 as Mt103Seen};
ghost use Rattle.mt103.specs.Order.{order_103};
ghost use Rattle.ref_tables.specs.Seen.{few_decimals};

use crate::instruction::Instr;
use crate::message::{Mt103, blank};
use crate::misfit::{d98, e46};
use crate::order::ORDER;
use crate::reading::fill_contents;
use corr_text::{Fault, let_go};
use fin_fields::{Field, FieldLines, lend_fields};
use fin_layout::{Found, MtFault, P22, Place, absent, fault_at, missing, put_places};
use ref_tables::RefTables;
use std::alloc::Global;

fn instructions_fault(instrs: &[Instr]) -> Option<Fault>
    requires { length instrs.now ≤ most_text_lines }
    ensures { result ≡ first_of (e46 instrs.now ∷ d98 instrs.now ∷ []) }
{
    match e46(instrs) {
        Some(fault) => Some(fault),
        None => d98(instrs),
    }
}

// Puts the place of each field into `found`, whatever stood there. P22: the first field that the order doesn't allow after the
// one before it.
fn fill_places(order: &[Place], f: &[FieldLines<'_>], found: &mut Found) -> Result<(), MtFault>
    requires few { length f.now ≤ most_text_lines }
    ensures fault { IfErr result (Tells (misplaced order.now f.now)) }
    ensures sound { OnOk result (misplaced order.now f.now ≡ None) }
    ensures places { OnOk result (found.new ≡ places_from order.now 0 f.now) }
    ensures each { OnOk result (length found.new ≡ length f.now) }
{
    put_places(order, f, found)?;
    let taken = found.as_slice().len();
    if taken != f.len() {
        return Err(MtFault::Bad(fault_at(f, taken, P22)));
    }
    Ok(())
}

// The fault that is told of a transfer whose contents have this one: P23 in its place, where a field is missing.
fn first_fault(order: &[Place], found: &Found, fault: MtFault) -> MtFault
    ensures lacking { IfSome (missing_from 0 order.now found.now) (λ k. result ≡ Bad (absent_of order.now k)) }
    ensures none { missing_from 0 order.now found.now ≡ None → result ≡ fault }
{
    match missing(order, found.as_slice()) {
        Some(at) => MtFault::Bad(absent(order, at)),
        None => fault,
    }
}

/// Puts what the fields of block 4 say into a transfer, whatever it said: the same tests as in `read_mt103`, and the same
/// promises of what it then says. After a fault it may say anything. `found` is room for the places of the fields.
pub fn fill_mt103(
    alloc: Global,
    f: &[FieldLines<'_>],
    t: &RefTables,
    found: &mut Found,
    m: &mut Mt103,
) -> Result<(), MtFault>
    requires few { length f.now ≤ most_text_lines }
    ensures message { Fills result m.new (mt103_of t.now f.now) }
    ensures few { OnOk result (length m.new.instrs ≤ length f.now) }
    ensures amount { OnOk result (IsPayable m.new.amount) }
    ensures written { IsTrue (few_decimals t.now.ccys) → All IsField f.now → OnOk result (IsReadable mt103_of m.new) }
    ensures complete { first_of (field_tests t.now f.now) ≡ None
        → (m : Mt103Seen) × (contents_of t.now f.now (places_from order_103 0 f.now) ≡ Ok m) }
{
    fill_places(&ORDER, f, found)?;
    // where all contents are read no field is missing
    if let Err(fault) = fill_contents(alloc, t, f, found, m) {
        return Err(first_fault(&ORDER, found, fault));
    }
    match instructions_fault(m.instrs.as_slice()) {
        Some(fault) => Err(MtFault::Bad(fault)),
        None => Ok(()),
    }
}

/// The transfer that the fields of block 4 say.
///
/// `Bad` tells the first test that fails (docs/messages.md, "MT103"): P22 and P23 of the order of fields; then each content
/// in the order of the text, with its field's tag and occurrence; then E46, the first 23E whose code came before; then D98,
/// the first 23E whose code stands before an earlier one's in the list of codes. Where no test of the fields fails they say
/// a message (`complete`), so there is no other refusal. The amount of 32A is above zero and below 10^14 minor units
/// (`amount`). `put_mt103` takes what fields of a text say (`written`). The rules of the transfer are not tested here. There are
/// at most 65,535 fields.
#[tactic(auto, using(crate::proofs::Complete::complete))]
pub fn read_mt103(alloc: Global, f: &[Field], t: &RefTables) -> Result<Mt103, MtFault>
    requires few { length f.now ≤ most_text_lines }
    ensures message { Gives result (mt103_of t.now f.now) }
    ensures few { IfOk result (λ m. length m.instrs ≤ length f.now) }
    ensures amount { IfOk result (λ m. IsPayable m.amount) }
    ensures written { IsTrue (few_decimals t.now.ccys) → All IsField f.now → IfOk result (IsReadable mt103_of) }
    ensures complete { first_of (field_tests t.now f.now) ≡ None
        → (m : Mt103Seen) × (contents_of t.now f.now (places_from order_103 0 f.now) ≡ Ok m) }
{
    let lent = lend_fields(alloc, f)?;
    let mut m = blank(alloc);
    let mut found = Found::new(alloc);
    match fill_mt103(alloc, lent.as_slice(), t, &mut found, &mut m) {
        Ok(()) => Ok(m),
        Err(fault) => {
            let_go(m);
            Err(fault)
        }
    }
}
