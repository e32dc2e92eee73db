//! An MT950 read from its fields.

ghost use Rattle.std.specs.Prelude.{◌≡◌, ◌≤◌, All, IfOk, IsTrue, None, Ok, length};
ghost use Rattle.corr_text.specs.First.{first_of};
ghost use Rattle.fin_fields.specs.Fields.{most_text_lines};
ghost use Rattle.fin_contents.specs.Writing.{IsReadable};
ghost use Rattle.fin_fields.specs.Writing.{IsField};
ghost use Rattle.fin_layout.specs.Order.{places_from};
ghost use Rattle.fin_layout.specs.Reading.{Gives};
ghost use Rattle.mt950.specs.declared.said.Said.{Said as SaidSeen};
ghost use Rattle.mt950.specs.Order.{order_950};
ghost use Rattle.mt950.specs.Page.{mt950_of, said_of, tests_950};
ghost use Rattle.ref_tables.specs.Seen.{few_decimals};

use crate::order::ORDER;
use crate::page::{Page950, page_of};
use crate::rules::currency_fault;
use crate::said::read_said;
use fin_fields::{Field, FieldLines, lend_fields};
use fin_layout::{MtFault, check_structure};
use ref_tables::RefTables;
use std::alloc::Global;

/// The page of a statement that the fields of block 4 say.
///
/// `Bad` tells the first test that fails (docs/messages.md, "MT950"): P22 and P23 of the order of fields; then each content in the
/// order of the text, with its field's tag and occurrence, the amounts of 61 in the currency of 60a; then C27 of 62a, where the
/// first two letters of the currencies of 60a, 62a and 64 differ; then P24 of 62a and of 64, where the whole currency does. Where
/// no test of the fields fails they say balances and lines (`complete`), so there is no other refusal. `put_mt950` takes what
/// fields of a text say (`written`). There are at most 65,535 fields.
#[tactic(auto, using(crate::proofs::Complete::complete_950))]
pub fn read_mt950(alloc: Global, f: &[Field], t: &RefTables) -> Result<Page950, MtFault>
    requires few { length f.now ≤ most_text_lines }
    ensures message { Gives result (mt950_of t.now f.now) }
    ensures written { IsTrue (few_decimals t.now.ccys) → All IsField f.now → IfOk result (IsReadable mt950_of) }
    ensures complete { first_of (tests_950 t.now f.now) ≡ None
        → (said : SaidSeen) × (said_of t.now f.now (places_from order_950 0 f.now) ≡ Ok said) }
{
    let lent = lend_fields(alloc, f)?;
    read_mt950_lines(alloc, lent.as_slice(), t)
}

/// As `read_mt950`, of fields whose lines stay in a text.
#[tactic(auto, using(crate::proofs::Complete::complete_950))]
pub fn read_mt950_lines(
    alloc: Global,
    f: &[FieldLines<'_>],
    t: &RefTables,
) -> Result<Page950, MtFault>
    requires few { length f.now ≤ most_text_lines }
    ensures message { Gives result (mt950_of t.now f.now) }
    ensures written { IsTrue (few_decimals t.now.ccys) → All IsField f.now → IfOk result (IsReadable mt950_of) }
    ensures complete { first_of (tests_950 t.now f.now) ≡ None
        → (said : SaidSeen) × (said_of t.now f.now (places_from order_950 0 f.now) ≡ Ok said) }
{
    let found = check_structure(alloc, &ORDER, f)?;
    let said = read_said(alloc, t, f, &found)?;
    match currency_fault(&said) {
        Some(fault) => Err(MtFault::Bad(fault)),
        None => Ok(page_of(said)),
    }
}
