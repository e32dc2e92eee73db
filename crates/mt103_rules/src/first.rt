//! The first rule that a transfer breaks.

ghost use Rattle.std.specs.Prelude.{◌≡◌, ◌≤◌, length};
ghost use Rattle.corr_text.specs.First.{first_of};
ghost use Rattle.fin_fields.specs.Fields.{most_text_lines};
ghost use Rattle.mt103_rules.specs.Rules.{all_rules, amount_rules, charge_rules, contact_rules, institution_rules, level_rules};

use crate::amounts::{c02, d49, d51, d75};
use crate::charges::{d50, e13, e15_given, e15_taken};
use crate::institutions::{c81, e06, e09, e16, e17};
use crate::instructions::{e01, e02, e18, e44, e45};
use crate::levels::{e03, e04, e05, e07, e10};
use crate::operation::has_level;
use corr_ids::Bic;
use corr_text::Fault;
use mt103::Mt103;
use ref_tables::RefTables;

#[tactic(auto, unfolding(crate::specs::Rules::amount_rules))]
fn amount_fault(m: &Mt103, sender: &Bic, receiver: &Bic, t: &RefTables) -> Option<Fault>
    ensures { result ≡ first_of (amount_rules sender.now receiver.now t.now m.now) }
{
    if let Some(fault) = d75(m) {
        return Some(fault);
    }
    d49(m, sender, receiver, t)
}

#[tactic(auto, unfolding(crate::specs::Rules::level_rules))]
fn level_fault(m: &Mt103) -> Option<Fault>
    requires few { length m.now.instrs ≤ most_text_lines }
    ensures { result ≡ first_of (level_rules m.now) }
{
    if !has_level(m) {
        return None;
    }
    if let Some(fault) = e01(m) {
        return Some(fault);
    }
    if let Some(fault) = e02(m) {
        return Some(fault);
    }
    if let Some(fault) = e03(m) {
        return Some(fault);
    }
    if let Some(fault) = e04(m) {
        return Some(fault);
    }
    if let Some(fault) = e05(m) {
        return Some(fault);
    }
    if let Some(fault) = e07(m) {
        return Some(fault);
    }
    e10(m)
}

#[tactic(auto, unfolding(crate::specs::Rules::institution_rules))]
fn institution_fault(m: &Mt103) -> Option<Fault>
    ensures { result ≡ first_of (institution_rules m.now) }
{
    if let Some(fault) = e06(m) {
        return Some(fault);
    }
    if let Some(fault) = c81(m) {
        return Some(fault);
    }
    if let Some(fault) = e16(m) {
        return Some(fault);
    }
    if let Some(fault) = e17(m) {
        return Some(fault);
    }
    e09(m)
}

#[tactic(auto, unfolding(crate::specs::Rules::charge_rules))]
fn charge_fault(m: &Mt103) -> Option<Fault>
    ensures { result ≡ first_of (charge_rules m.now) }
{
    if let Some(fault) = e18(m) {
        return Some(fault);
    }
    if let Some(fault) = e13(m) {
        return Some(fault);
    }
    if let Some(fault) = d50(m) {
        return Some(fault);
    }
    if let Some(fault) = e15_taken(m) {
        return Some(fault);
    }
    if let Some(fault) = e15_given(m) {
        return Some(fault);
    }
    if let Some(fault) = d51(m) {
        return Some(fault);
    }
    c02(m)
}

#[tactic(auto, unfolding(crate::specs::Rules::contact_rules))]
fn contact_fault(m: &Mt103) -> Option<Fault>
    ensures { result ≡ first_of (contact_rules m.now) }
{
    if m.instrs.as_slice().is_empty() {
        return None;
    }
    if let Some(fault) = e44(m) {
        return Some(fault);
    }
    e45(m)
}

/// The first rule that a transfer between these banks breaks, none where it breaks none. Takes no memory.
///
/// The rules are tested in the order of docs/messages.md, "Rules of the MT103", which is that of the handbook's network
/// validated rules in this profile. The tag of a fault is two digits where the field has options, else the whole tag; `nth`
/// is 0 where the field is missing. The transfer has at most 65,535 of field 23E.
#[tactic(auto, unfolding(crate::specs::Rules::all_rules), using(crate::proofs::Parts::first_of_append))]
pub fn first_rule(m: &Mt103, sender: &Bic, receiver: &Bic, t: &RefTables) -> Option<Fault>
    requires few { length m.now.instrs ≤ most_text_lines }
    ensures { result ≡ first_of (all_rules sender.now receiver.now t.now m.now) }
{
    if let Some(fault) = amount_fault(m, sender, receiver, t) {
        return Some(fault);
    }
    if let Some(fault) = level_fault(m) {
        return Some(fault);
    }
    if let Some(fault) = institution_fault(m) {
        return Some(fault);
    }
    if let Some(fault) = charge_fault(m) {
        return Some(fault);
    }
    contact_fault(m)
}
