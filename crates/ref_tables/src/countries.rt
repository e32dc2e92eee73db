//! The table of countries.

ghost use Rattle.ref_tables.specs.Tables.{country_fault, country_in_row};

use crate::columns::{country, yes_or_no};
use crate::fault::Why;
use crate::keyed::{KeyedRow, unseen};
use crate::rows::cell;
use csv::ByteRecord;
use indexmap::IndexMap;

/// A row of the table of countries: a code, which is the key, and whether the country is listed.
pub struct CountryRow;

impl KeyedRow<2, bool> for CountryRow {
    ghost entry = { country_in_row };

    ghost fault = { λ _. country_fault };

    fn read(
        &self,
        seen: &IndexMap<[u8; 2], bool>,
        row: &ByteRecord,
    ) -> Result<([u8; 2], bool), Why> {
        if row.len() != 2 {
            return Err(Why::Columns);
        }
        let Some(country) = country(cell(row, 0)) else {
            return Err(Why::Value { col: 1 });
        };
        let Some(listed) = yes_or_no(cell(row, 1)) else {
            return Err(Why::Value { col: 2 });
        };
        unseen(seen, &country)?;
        Ok((country, listed))
    }
}
