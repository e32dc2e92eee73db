//! What the tests of message types share.

ghost use Rattle.std.specs.Prelude.{◌≤◌, All, IfOk, IsTrue, length};
ghost use Rattle.fin_fields.specs.Writing.{IsField};
ghost use Rattle.ref_tables.specs.Seen.{few_decimals};

use corr_text::List;
use fin_fields::{Field, FieldFault, FieldLines, cut_fields, cut_lines};
use ref_tables::{RefTables, TableFault, read_tables};
use std::alloc::Global;

/// Tables with one bank and one currency. They are not told: a test carries no more of them than it needs.
pub fn tables(alloc: Global) -> Result<RefTables, TableFault>
    ensures { IfOk result (λ t. IsTrue (few_decimals t.ccys)) }
{
    read_tables(alloc, b"ALPHDEFF\n", b"EUR,2\n", b"")
}

/// The fields of a short text.
#[tactic(auto, using(fin_fields::proofs::laws::Bounds::lines_few))]
pub fn cut(alloc: Global, text: &[u8]) -> Result<List<Field>, FieldFault>
    ensures few { IfOk result (λ fields. length fields ≤ 1000) }
    ensures fit { IfOk result (λ fields. All IsField fields) }
{
    if text.len() > 1000 {
        return Err(FieldFault::Memory);
    }
    let fields = cut_fields(alloc, text)?;
    if fields.as_slice().len() > 1000 {
        return Err(FieldFault::Memory);
    }
    Ok(fields)
}

/// The fields of a short text, whose lines stay in it.
#[tactic(auto, using(fin_fields::proofs::laws::Bounds::lines_few))]
pub fn cut_in_place(alloc: Global, text: &[u8]) -> Result<List<FieldLines<'_>>, FieldFault>
    ensures { IfOk result (λ fields. length fields ≤ 1000) }
{
    if text.len() > 1000 {
        return Err(FieldFault::Memory);
    }
    let fields = cut_lines(alloc, text)?;
    if fields.as_slice().len() > 1000 {
        return Err(FieldFault::Memory);
    }
    Ok(fields)
}

/// Lets a value go. Generic, so that it goes as one.
pub fn let_go<M: Drop>(_m: M) {}
