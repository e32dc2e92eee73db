//! The parties of sequence B: fields 50a to 59a.

ghost use Rattle.std.specs.Prelude.{◌≤◌, length};
ghost use Rattle.fin_fields.specs.Fields.{most_text_lines};
ghost use Rattle.fin_layout.specs.Reading.{Gives};
ghost use Rattle.mt202cov.specs.inner.Parts.{customers_of, payee_side_of, payer_side_of};

use crate::order::ORDER;
use crate::places::{B_ACCOUNT_BANK, B_INTERMEDIARY, B_ORDERING, PAYEE, PAYER};
use corr_text::let_go;
use fin_contents::KnownParty;
use fin_fields::FieldLines;
use fin_layout::{Found, MtFault, read_one, read_optional};
use fin_parties::Party;
use ref_tables::RefTables;
use std::alloc::Global;

/// What 50a, 52a, 56a, 57a and 59a of sequence B say.
#[derive(Drop)]
pub struct Customers {
    pub payer: Party,
    pub p52: Option<Party>,
    pub p56: Option<Party>,
    pub p57: Option<Party>,
    pub payee: Party,
}

/// What 50a and 52a of sequence B say.
#[derive(Drop)]
pub struct PayerSide {
    pub payer: Party,
    pub p52: Option<Party>,
}

/// What 56a, 57a and 59a of sequence B say.
#[derive(Drop)]
pub struct PayeeSide {
    pub p56: Option<Party>,
    pub p57: Option<Party>,
    pub payee: Party,
}

/// The customers and their banks that fields at the places of sequence B say.
#[tactic(auto, unfolding(crate::specs::inner::Parts::customers_of))]
pub fn read_customers(
    alloc: Global,
    tables: &RefTables,
    fields: &[FieldLines<'_>],
    found: &Found,
) -> Result<Customers, MtFault>
    requires { length fields.now ≤ most_text_lines }
    ensures { Gives result (customers_of tables.now fields.now found.now) }
{
    let from = read_payer_side(alloc, tables, fields, found)?;
    match read_payee_side(alloc, tables, fields, found) {
        Ok(to) => Ok(Customers {
            payer: from.payer,
            p52: from.p52,
            p56: to.p56,
            p57: to.p57,
            payee: to.payee,
        }),
        Err(fault) => {
            let_go(from);
            Err(fault)
        }
    }
}

/// The ordering customer, and the bank before the sender.
#[tactic(auto, unfolding(crate::specs::inner::Parts::payer_side_of))]
fn read_payer_side(
    alloc: Global,
    tables: &RefTables,
    fields: &[FieldLines<'_>],
    found: &Found,
) -> Result<PayerSide, MtFault>
    requires { length fields.now ≤ most_text_lines }
    ensures { Gives result (payer_side_of tables.now fields.now found.now) }
{
    let party = KnownParty { tables };
    let payer = read_one(alloc, &party, &ORDER, fields, found, PAYER)?;
    let p52 = read_optional(alloc, &party, fields, found, B_ORDERING)?;
    Ok(PayerSide { payer, p52 })
}

/// The banks on the way to the beneficiary customer, and that customer.
#[tactic(auto, unfolding(crate::specs::inner::Parts::payee_side_of))]
fn read_payee_side(
    alloc: Global,
    tables: &RefTables,
    fields: &[FieldLines<'_>],
    found: &Found,
) -> Result<PayeeSide, MtFault>
    requires { length fields.now ≤ most_text_lines }
    ensures { Gives result (payee_side_of tables.now fields.now found.now) }
{
    let party = KnownParty { tables };
    let p56 = read_optional(alloc, &party, fields, found, B_INTERMEDIARY)?;
    let p57 = read_optional(alloc, &party, fields, found, B_ACCOUNT_BANK)?;
    let payee = read_one(alloc, &party, &ORDER, fields, found, PAYEE)?;
    Ok(PayeeSide { p56, p57, payee })
}
