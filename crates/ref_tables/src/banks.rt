//! The table of banks.

ghost use Rattle.ref_tables.specs.Tables.{bank_fault, bank_in_row};

use crate::fault::Why;
use crate::keyed::{KeyedRow, unseen};
use crate::rows::cell;
use corr_ids::read_bic;
use csv::ByteRecord;
use indexmap::IndexMap;

/// A row of the table of banks: a BIC, whose head is the key.
pub struct BankRow;

impl KeyedRow<8, [u8; 3]> for BankRow {
    ghost entry = { bank_in_row };

    ghost fault = { λ _. bank_fault };

    fn read(
        &self,
        seen: &IndexMap<[u8; 8], [u8; 3]>,
        row: &ByteRecord,
    ) -> Result<([u8; 8], [u8; 3]), Why> {
        if row.len() != 1 {
            return Err(Why::Columns);
        }
        let Some(bic) = read_bic(cell(row, 0)) else {
            return Err(Why::Value { col: 1 });
        };
        unseen(seen, &bic.head)?;
        Ok((bic.head, bic.branch))
    }
}
