//! An MT202 COV read from its fields.

ghost use Rattle.std.specs.Prelude.{◌≡◌, ◌≤◌, All, IfOk, IsTrue, None, Ok, length};
ghost use Rattle.corr_text.specs.First.{first_of};
ghost use Rattle.fin_fields.specs.Fields.{most_text_lines};
ghost use Rattle.fin_contents.specs.Money.{IsPayable};
ghost use Rattle.fin_contents.specs.Writing.{IsReadable};
ghost use Rattle.fin_fields.specs.Writing.{IsField};
ghost use Rattle.fin_layout.specs.Order.{places_from};
ghost use Rattle.fin_layout.specs.Reading.{Gives};
ghost use Rattle.mt202cov.specs.Message.{contents_of, field_tests, mt202cov_of};
ghost use Rattle.mt202cov.specs.declared.message.Mt202Cov.{Mt202Cov as Mt202CovSeen};
ghost use Rattle.mt202cov.specs.Order.{order_202};
ghost use Rattle.ref_tables.specs.Seen.{few_decimals};

use crate::message::Mt202Cov;
use crate::order::ORDER;
use crate::reading::read_contents;
use crate::rules::first_rule;
use corr_text::let_go;
use fin_fields::{Field, FieldLines, lend_fields};
use fin_layout::{MtFault, check_structure};
use ref_tables::RefTables;
use std::alloc::Global;

/// The cover that the fields of block 4 say.
///
/// `Bad` tells the first test that fails (docs/messages.md, "MT202 COV"): P22 and P23 of the order of fields, both sequences
/// being one order; then each content in the order of the text, with its field's tag and occurrence; then the rules, C81
/// where 56a stands without 57a in sequence A, and C68 where it does in sequence B. Where no test of the fields fails they
/// say a cover (`complete`), so there is no other refusal. The amount of a cover is above zero and below 10^14 minor units
/// (`amount`). `put_mt202cov` takes what fields of a text say (`written`). There are at most 65,535 fields.
#[tactic(auto, using(crate::proofs::Complete::complete))]
pub fn read_mt202cov(alloc: Global, f: &[Field], t: &RefTables) -> Result<Mt202Cov, MtFault>
    requires { length f.now ≤ most_text_lines }
    ensures message { Gives result (mt202cov_of t.now f.now) }
    ensures amount { IfOk result (λ m. IsPayable m.amount) }
    ensures written { IsTrue (few_decimals t.now.ccys) → All IsField f.now → IfOk result (IsReadable mt202cov_of) }
    ensures complete { first_of (field_tests t.now f.now) ≡ None
        → (m : Mt202CovSeen) × (contents_of t.now f.now (places_from order_202 0 f.now) ≡ Ok m) }
{
    let lent = lend_fields(alloc, f)?;
    read_mt202cov_lines(alloc, lent.as_slice(), t)
}

/// As `read_mt202cov`, of fields whose lines stay in a text.
pub fn read_mt202cov_lines(
    alloc: Global,
    f: &[FieldLines<'_>],
    t: &RefTables,
) -> Result<Mt202Cov, MtFault>
    requires { length f.now ≤ most_text_lines }
    ensures message { Gives result (mt202cov_of t.now f.now) }
    ensures amount { IfOk result (λ m. IsPayable m.amount) }
    ensures written { IsTrue (few_decimals t.now.ccys) → All IsField f.now → IfOk result (IsReadable mt202cov_of) }
    ensures complete { first_of (field_tests t.now f.now) ≡ None
        → (m : Mt202CovSeen) × (contents_of t.now f.now (places_from order_202 0 f.now) ≡ Ok m) }
{
    let found = check_structure(alloc, &ORDER, f)?;
    let m = read_contents(alloc, t, f, &found)?;
    match first_rule(&m) {
        Some(fault) => {
            let_go(m);
            Err(MtFault::Bad(fault))
        }
        None => Ok(m),
    }
}
