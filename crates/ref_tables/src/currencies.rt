//! The table of currencies.

ghost use Rattle.ref_tables.specs.Tables.{ccy_fault, ccy_of};

use crate::columns;
use crate::fault::Why;
use crate::keyed::{KeyedRow, unseen};
use crate::rows::cell;
use csv::ByteRecord;
use indexmap::IndexMap;

/// A row of the table of currencies: a code, which is the key, and the number of decimals.
pub struct CurrencyRow;

impl KeyedRow<3, u8> for CurrencyRow {
    ghost entry = { ccy_of };

    ghost fault = { λ _. ccy_fault };

    fn read(&self, seen: &IndexMap<[u8; 3], u8>, row: &ByteRecord) -> Result<([u8; 3], u8), Why> {
        if row.len() != 2 {
            return Err(Why::Columns);
        }
        let Some(ccy) = columns::ccy(cell(row, 0)) else {
            return Err(Why::Value { col: 1 });
        };
        let Some(decimals) = columns::decimals(cell(row, 1)) else {
            return Err(Why::Value { col: 2 });
        };
        unseen(seen, &ccy.0)?;
        Ok((ccy.0, decimals))
    }
}
