//! The two sequences of a cover.

ghost use Rattle.std.specs.Prelude.{◌≤◌, length};
ghost use Rattle.fin_fields.specs.Fields.{most_text_lines};
ghost use Rattle.fin_layout.specs.Reading.{Gives};
ghost use Rattle.mt202cov.specs.inner.Parts.{sequence_a_of, sequence_b_of};

use crate::banks::{Banks, read_banks};
use crate::customers::{Customers, read_customers};
use crate::details::{Details, read_details};
use crate::places::A_NOTES;
use crate::terms::{Terms, read_terms};
use corr_text::{List, Text, let_go};
use fin_contents::{Texts, or_none};
use fin_fields::FieldLines;
use fin_layout::{Found, MtFault, read_optional};
use ref_tables::RefTables;
use std::alloc::Global;

/// What sequence A says, the payment between banks.
#[derive(Drop)]
pub struct SequenceA {
    pub terms: Terms,
    pub banks: Banks,
    pub notes: List<Text>,
}

/// What sequence B says, the transfer that is covered.
#[derive(Drop)]
pub struct SequenceB {
    pub customers: Customers,
    pub details: Details,
}

/// What the fields at the places of sequence A say.
#[tactic(auto, unfolding(crate::specs::inner::Parts::sequence_a_of))]
pub fn read_sequence_a(
    alloc: Global,
    tables: &RefTables,
    fields: &[FieldLines<'_>],
    found: &Found,
) -> Result<SequenceA, MtFault>
    requires few { length fields.now ≤ most_text_lines }
    requires each { length found.now ≤ length fields.now }
    ensures { Gives result (sequence_a_of tables.now fields.now found.now) }
{
    let terms = read_terms(alloc, tables, fields, found)?;
    let banks = match read_banks(alloc, tables, fields, found) {
        Ok(banks) => banks,
        Err(fault) => {
            let_go(terms);
            return Err(fault);
        }
    };
    match read_optional(alloc, &Texts { most: 6 }, fields, found, A_NOTES) {
        Ok(notes) => Ok(SequenceA {
            terms,
            banks,
            notes: or_none(alloc, notes),
        }),
        Err(fault) => {
            let_go(terms);
            let_go(banks);
            Err(fault)
        }
    }
}

/// What the fields at the places of sequence B say.
#[tactic(auto, unfolding(crate::specs::inner::Parts::sequence_b_of))]
pub fn read_sequence_b(
    alloc: Global,
    tables: &RefTables,
    fields: &[FieldLines<'_>],
    found: &Found,
) -> Result<SequenceB, MtFault>
    requires { length fields.now ≤ most_text_lines }
    ensures { Gives result (sequence_b_of tables.now fields.now found.now) }
{
    let customers = read_customers(alloc, tables, fields, found)?;
    match read_details(alloc, tables, fields, found) {
        Ok(details) => Ok(SequenceB { customers, details }),
        Err(fault) => {
            let_go(customers);
            Err(fault)
        }
    }
}
