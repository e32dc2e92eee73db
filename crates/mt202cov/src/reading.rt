//! What the fields of an MT202 COV say.

ghost use Rattle.std.specs.Prelude.{◌≡◌, ◌≤◌, length};
ghost use Rattle.fin_fields.specs.Fields.{most_text_lines};
ghost use Rattle.fin_layout.specs.Reading.{Gives};
ghost use Rattle.mt202cov.specs.inner.Parts.{contents_in_parts, cover_of_parts};

use crate::message::Mt202Cov;
use crate::sequences::{SequenceA, SequenceB, read_sequence_a, read_sequence_b};
use corr_text::let_go;
use fin_fields::FieldLines;
use fin_layout::{Found, MtFault};
use ref_tables::RefTables;
use std::alloc::Global;

fn message(a: SequenceA, b: SequenceB) -> Mt202Cov
    ensures { result ≡ cover_of_parts a b }
{
    Mt202Cov {
        reference: a.terms.reference,
        related: a.terms.related,
        times: a.terms.times,
        value: a.terms.value.day,
        amount: a.terms.value.amount,
        a52: a.banks.p52,
        a53: a.banks.p53,
        a54: a.banks.p54,
        a56: a.banks.p56,
        a57: a.banks.p57,
        a58: a.banks.p58,
        a_notes: a.notes,
        payer: b.customers.payer,
        b52: b.customers.p52,
        b56: b.customers.p56,
        b57: b.customers.p57,
        payee: b.customers.payee,
        info: b.details.info,
        b_notes: b.details.notes,
        ordered: b.details.ordered,
    }
}

/// The cover that fields at these places say. `Bad`: what is wrong with the first of them that is refused, or P23 where one that
/// must be there is missing before it.
#[tactic(auto, unfolding(crate::specs::inner::Parts::contents_in_parts))]
pub fn read_contents(
    alloc: Global,
    tables: &RefTables,
    fields: &[FieldLines<'_>],
    found: &Found,
) -> Result<Mt202Cov, MtFault>
    requires few { length fields.now ≤ most_text_lines }
    requires each { length found.now ≤ length fields.now }
    ensures { Gives result (contents_in_parts tables.now fields.now found.now) }
{
    let a = read_sequence_a(alloc, tables, fields, found)?;
    match read_sequence_b(alloc, tables, fields, found) {
        Ok(b) => Ok(message(a, b)),
        Err(fault) => {
            let_go(a);
            Err(fault)
        }
    }
}
