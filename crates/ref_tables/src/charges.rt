//! The table of charges.

ghost use Rattle.std.specs.Prelude.{◌≡◌, ◌<◌, [], IfErr, IfOk, IfSome, IsTrue, None, map};
ghost use Rattle.corr_money.specs.Amounts.{amount_end};
ghost use Rattle.ref_tables.specs.Charges.{charge_fault, charge_in_row, charges_fault};
ghost use Rattle.ref_tables.specs.Refusals.{Tells, named};
ghost use Rattle.ref_tables.specs.Rows.{rows_of};
ghost use Rattle.ref_tables.specs.Seen.{are_charges, charge_in};
ghost use Rattle.ref_tables.specs.declared.fault.TableName.TheVariants as names;

use crate::columns;
use crate::fault::{TableFault, TableName, Why};
use crate::keyed::{KeyedRow, read_keyed, unseen};
use crate::rows::cell;
use crate::tables::RefTables;
use corr_money::{Ccy, Minor};
use csv::ByteRecord;
use indexmap::IndexMap;
use std::alloc::Global;
use std::marker::Model;

const MAX_CHARGES: usize = 1000;

/// What the home bank charges for a transfer in each currency, in minor units above 0 and below 10^14.
///
/// Contracts see the list of the currencies' codes with their charges, in the order of the file's rows.
#[derive(Drop)]
pub struct Charges {
    by_ccy: IndexMap<[u8; 3], Minor>,
}

impl Model for Charges {
    ghost use Rattle.std.specs.Prelude.{ℕ, List, IsTrue};
    ghost use Rattle.corr_money.specs.declared.amount.Minor.{Minor};
    ghost use Rattle.ref_tables.specs.Seen.{are_charges};

    ghost Value = { List (List ℕ × Minor) };

    ghost view = { λ c. c.by_ccy.entries };

    ghost invariant = { λ c. IsTrue (are_charges c.by_ccy.entries) };
}

impl Charges {
    /// No charge in any currency.
    pub fn empty(alloc: Global) -> Charges
        ensures { result ≡ [] }
    {
        Charges {
            by_ccy: IndexMap::new(alloc),
        }
    }

    /// The charge in a currency; none where it has no row in the table of charges.
    #[tactic(auto, using(crate::proofs::laws::Charged::lookup_charge))]
    pub fn of(&self, c: Ccy) -> Option<Minor>
        ensures value { result ≡ charge_in self.now c.0 }
        ensures bounds { IfSome result (λ m. (0 < m.0) × (m.0 < amount_end)) }
    {
        self.by_ccy.get(&c.0).copied()
    }
}

/// A row of the table of charges: a currency's code, which is the key and stands in these tables, and the charge.
#[derive(Clone, Copy)]
struct ChargeRow<'a> {
    known: &'a RefTables,
}

impl<'a> KeyedRow<3, Minor> for ChargeRow<'a> {
    ghost entry = { charge_in_row };

    ghost fault = { λ reader. charge_fault reader.known.now };

    fn read(
        &self,
        seen: &IndexMap<[u8; 3], Minor>,
        row: &ByteRecord,
    ) -> Result<([u8; 3], Minor), Why> {
        if row.len() != 2 {
            return Err(Why::Columns);
        }
        let Some(ccy) = columns::ccy(cell(row, 0)) else {
            return Err(Why::Value { col: 1 });
        };
        let Some(charge) = columns::charge(cell(row, 1)) else {
            return Err(Why::Value { col: 2 });
        };
        unseen(seen, &ccy.0)?;
        if self.known.decimals(ccy).is_none() {
            return Err(Why::Currency);
        }
        Ok((ccy.0, charge))
    }
}

/// The charges of this file, under the tables `t` (docs/tables.md, "charges").
///
/// `Bad` tells the first row that fails, from 1, and why; row 0 where the file has more than 8 MiB or 1,000 rows.
pub fn read_charges(alloc: Global, file: &[u8], t: &RefTables) -> Result<Charges, TableFault>
    ensures sound { IfOk result (λ c. charges_fault t.now file.now ≡ None) }
    ensures value { IfOk result (λ c. c ≡ map charge_in_row (rows_of file.now)) }
    ensures charges { IfOk result (λ c. IsTrue (are_charges c)) }
    ensures bad { IfErr result (Tells (named names.Charges (charges_fault t.now file.now))) }
{
    let reader = ChargeRow { known: t };
    let by_ccy = read_keyed::<3, Minor, ChargeRow>(
        alloc,
        &reader,
        TableName::Charges,
        MAX_CHARGES,
        file,
    )?;
    Ok(Charges { by_ccy })
}
