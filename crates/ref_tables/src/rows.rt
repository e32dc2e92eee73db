//! The rows of a table file.

ghost use Rattle.std.specs.Prelude.{◌≡◌, IfOk, option_map, map};
ghost use Rattle.csv.specs.Records.{fields_of};
ghost use Rattle.ref_tables.specs.Rows.{cell as cell_of, rows_of, rows_within, up_to};
ghost use Rattle.ref_tables.specs.inner.Rows.{IsReadFault};

use corr_text::Memory;
use csv::{ByteRecord, ErrorKind, ReaderBuilder};
use std::alloc::Global;

/// The most bytes of a table file: 8 MiB.
const MAX_FILE: usize = 8388608;

// Rows may have any number of cells, and cells need not be text, so of the faults of csv only these two are left. A slice
// is read without a fault, so what comes is out of memory.
fn out_of_memory(kind: ErrorKind) -> Memory
    requires { IsReadFault kind }
{
    match kind {
        ErrorKind::Io(_) | ErrorKind::OutOfMemory => Memory,
        ErrorKind::UnequalLengths { .. }
        | ErrorKind::Utf8 { .. }
        | ErrorKind::Serialize(_)
        | ErrorKind::Deserialize { .. } => unreachable!(),
    }
}

// The records of a file, or none where there are more than `most`.
fn read_records(alloc: Global, file: &[u8], most: usize) -> Result<Option<Vec<ByteRecord>>, Memory>
    ensures { IfOk result (λ o. option_map (λ v. map fields_of v.items) o ≡ up_to most (rows_of file.now)) }
{
    let reader = ReaderBuilder::new()
        .has_headers(false)
        .flexible(true)
        .from_reader(alloc, file);
    let mut rows = Vec::new(alloc);
    for row in reader.into_byte_records() {
        let row = match row {
            Ok(row) => row,
            Err(e) => return Err(out_of_memory(e.into_kind())),
        };
        if rows.len() >= most {
            return Ok(None);
        }
        rows.push(row)?;
    }
    Ok(Some(rows))
}

/// The rows of a table file, or none where it has more than 8 MiB or more than `most` rows (docs/tables.md, "Files").
pub fn read_rows(alloc: Global, file: &[u8], most: usize) -> Result<Option<Vec<ByteRecord>>, Memory>
    ensures { IfOk result (λ o. option_map (λ v. map fields_of v.items) o ≡ rows_within most file.now) }
{
    if file.len() > MAX_FILE {
        return Ok(None);
    }
    read_records(alloc, file, most)
}

/// The cell of a row at a place, from 0; no bytes past its last.
pub fn cell(row: &ByteRecord, at: usize) -> &[u8]
    ensures { result.now ≡ cell_of at (fields_of row.now) }
{
    row.get(at).unwrap_or(&[])
}
