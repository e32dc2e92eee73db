//! Tables whose rows have a key that no two of them share.

ghost use Rattle.std.specs.Prelude.{◌≡◌, ◌<◌, ◌≤◌, ℕ, List, [], IfErr, IfOk, OnOk, Option, None, Some, length, map};
ghost use Rattle.std.specs.Map.{keys_of};
ghost use Rattle.std.specs.Str.{bytes_eq};
ghost use Rattle.indexmap.specs.IndexMap.{get, index_map_len};
ghost use Rattle.csv.specs.Records.{fields_of};
ghost use Rattle.ref_tables.specs.Refusals.{Tells, against, double, first_bad_row, first_fault, named};
ghost use Rattle.ref_tables.specs.Rows.{Cells, rows_of, most_banks};
ghost use Rattle.ref_tables.specs.declared.fault.Why.{Why};

use crate::fault::{TableFault, TableName, Why, bad};
use crate::rows::read_rows;
use csv::ByteRecord;
use indexmap::IndexMap;
use std::alloc::Global;

/// A reader of the rows of one table: what a row says, and how it may fail against what the rows before it say.
pub trait KeyedRow<const N: usize, V> {
    ghost entry: { Cells → List ℕ × V };

    ghost fault: { Self → List (List ℕ × V) → Cells → Option Why };

    /// Reads a row, given what the rows before it say.
    fn read(&self, seen: &IndexMap<[u8; N], V>, row: &ByteRecord) -> Result<([u8; N], V), Why>
        requires { index_map_len seen.now < most_banks }
        ensures sound { OnOk result (fault self.now seen.now.entries (fields_of row.now) ≡ None) }
        ensures value { IfOk result (λ e. (e.0, e.1) ≡ entry (fields_of row.now)) }
        ensures new { IfOk result (λ e. get bytes_eq seen.now e.0 ≡ None) }
        ensures bad { IfErr result (λ why. fault self.now seen.now.entries (fields_of row.now) ≡ Some why) };
}

/// Tests that no earlier row has a key: else `Double` tells the first that has it, from 1.
pub fn unseen<const N: usize, V>(seen: &IndexMap<[u8; N], V>, key: &[u8; N]) -> Result<(), Why>
    requires { index_map_len seen.now < most_banks }
    ensures new { OnOk result (get bytes_eq seen.now key.now ≡ None) }
    ensures sound { OnOk result (double (bytes_eq key.now) (keys_of seen.now.entries) ≡ None) }
    ensures bad { IfErr result (λ why. double (bytes_eq key.now) (keys_of seen.now.entries) ≡ Some why) }
{
    match seen.get_index_of(key) {
        Some(at) => Err(Why::Double { row: at as u32 + 1 }),
        None => Ok(()),
    }
}

// What the rows say, by their keys.
fn enter_rows<const N: usize, V: Drop, R: KeyedRow<N, V>>(
    alloc: Global,
    reader: &R,
    table: TableName,
    rows: &[ByteRecord],
) -> Result<IndexMap<[u8; N], V>, TableFault>
    requires { length rows.now ≤ most_banks }
    ensures ok { IfOk result (λ m. (first_bad_row (against R.entry (R.fault reader.now)) [] (map fields_of rows.now) ≡ None)
        × (m.entries ≡ map R.entry (map fields_of rows.now))) }
    ensures bad { IfErr result (Tells (named table (first_bad_row (against R.entry (R.fault reader.now)) [] (map fields_of rows.now)))) }
{
    let mut seen = IndexMap::new(alloc);
    for row in rows {
        match reader.read(&seen, row) {
            Ok(entry) => {
                let key = entry.0;
                seen.insert(key, entry.1)?;
            }
            Err(why) => return Err(bad(table, seen.len() + 1, why)),
        }
    }
    Ok(seen)
}

/// Reads the file of a table of at most `most` rows. `Bad` tells the first row that fails, from 1, or 0 for the whole file.
#[tactic(auto, using(crate::proofs::laws::Records::rows_within_some))]
pub fn read_keyed<const N: usize, V: Drop, R: KeyedRow<N, V>>(
    alloc: Global,
    reader: &R,
    table: TableName,
    most: usize,
    file: &[u8],
) -> Result<IndexMap<[u8; N], V>, TableFault>
    requires { most ≤ most_banks }
    ensures ok { IfOk result (λ m. (first_fault most (against R.entry (R.fault reader.now)) file.now ≡ None)
        × (m.entries ≡ map R.entry (rows_of file.now))) }
    ensures bad { IfErr result (Tells (named table (first_fault most (against R.entry (R.fault reader.now)) file.now))) }
{
    match read_rows(alloc, file, most)? {
        Some(rows) => enter_rows::<N, V, R>(alloc, reader, table, rows.as_slice()),
        None => Err(bad(table, 0, Why::Rows)),
    }
}
