//! The banks of sequence A: fields 52a to 58a.

ghost use Rattle.std.specs.Prelude.{◌≤◌, length};
ghost use Rattle.fin_fields.specs.Fields.{most_text_lines};
ghost use Rattle.fin_layout.specs.Reading.{Gives};
ghost use Rattle.mt202cov.specs.inner.Parts.{banks_of, beneficiary_side_of, sender_side_of};

use crate::order::ORDER;
use crate::places::{
    A_ACCOUNT_BANK, A_INTERMEDIARY, A_ORDERING, A_RECEIVERS_BANK, A_SENDERS_BANK, BENEFICIARY,
};
use corr_text::let_go;
use fin_contents::KnownParty;
use fin_fields::FieldLines;
use fin_layout::{Found, MtFault, read_one, read_optional};
use fin_parties::Party;
use ref_tables::RefTables;
use std::alloc::Global;

/// What 52a, 53a, 54a, 56a, 57a and 58a of sequence A say.
#[derive(Drop)]
pub struct Banks {
    pub p52: Option<Party>,
    pub p53: Option<Party>,
    pub p54: Option<Party>,
    pub p56: Option<Party>,
    pub p57: Option<Party>,
    pub p58: Party,
}

/// What 52a, 53a and 54a of sequence A say.
#[derive(Drop)]
pub struct SenderSide {
    pub p52: Option<Party>,
    pub p53: Option<Party>,
    pub p54: Option<Party>,
}

/// What 56a, 57a and 58a of sequence A say.
#[derive(Drop)]
pub struct BeneficiarySide {
    pub p56: Option<Party>,
    pub p57: Option<Party>,
    pub p58: Party,
}

/// The banks that fields at the places of sequence A say.
#[tactic(auto, unfolding(crate::specs::inner::Parts::banks_of))]
pub fn read_banks(
    alloc: Global,
    tables: &RefTables,
    fields: &[FieldLines<'_>],
    found: &Found,
) -> Result<Banks, MtFault>
    requires { length fields.now ≤ most_text_lines }
    ensures { Gives result (banks_of tables.now fields.now found.now) }
{
    let sender = read_sender_side(alloc, tables, fields, found)?;
    match read_beneficiary_side(alloc, tables, fields, found) {
        Ok(beneficiary) => Ok(Banks {
            p52: sender.p52,
            p53: sender.p53,
            p54: sender.p54,
            p56: beneficiary.p56,
            p57: beneficiary.p57,
            p58: beneficiary.p58,
        }),
        Err(fault) => {
            let_go(sender);
            Err(fault)
        }
    }
}

/// The banks on the sender's side.
#[tactic(auto, unfolding(crate::specs::inner::Parts::sender_side_of))]
fn read_sender_side(
    alloc: Global,
    tables: &RefTables,
    fields: &[FieldLines<'_>],
    found: &Found,
) -> Result<SenderSide, MtFault>
    requires { length fields.now ≤ most_text_lines }
    ensures { Gives result (sender_side_of tables.now fields.now found.now) }
{
    let party = KnownParty { tables };
    let p52 = read_optional(alloc, &party, fields, found, A_ORDERING)?;
    let p53 = read_optional(alloc, &party, fields, found, A_SENDERS_BANK)?;
    let p54 = read_optional(alloc, &party, fields, found, A_RECEIVERS_BANK)?;
    Ok(SenderSide { p52, p53, p54 })
}

/// The banks on the beneficiary's side.
#[tactic(auto, unfolding(crate::specs::inner::Parts::beneficiary_side_of))]
fn read_beneficiary_side(
    alloc: Global,
    tables: &RefTables,
    fields: &[FieldLines<'_>],
    found: &Found,
) -> Result<BeneficiarySide, MtFault>
    requires { length fields.now ≤ most_text_lines }
    ensures { Gives result (beneficiary_side_of tables.now fields.now found.now) }
{
    let party = KnownParty { tables };
    let p56 = read_optional(alloc, &party, fields, found, A_INTERMEDIARY)?;
    let p57 = read_optional(alloc, &party, fields, found, A_ACCOUNT_BANK)?;
    let p58 = read_one(alloc, &party, &ORDER, fields, found, BENEFICIARY)?;
    Ok(BeneficiarySide { p56, p57, p58 })
}
