//! The directory of a day: banks, currencies, countries, instructions, and charges.

ghost use Rattle.std.specs.Prelude.{IfOk, IfErr, IsTrue};
ghost use Rattle.ref_tables.specs.Seen.{few_decimals};
ghost use Rattle.ssi_versions.specs.InstructionList.{AreInstructions};
ghost use Rattle.corr_top.specs.inner.Tables.{HasDirectory, StopsDirectory};

use crate::room::Tables;
use crate::tables::{TableStop, read_charged, read_instructions, read_known};
use corr_io::Source;
use ref_tables::{Charges, RefTables};
use ssi_versions::Ssi;
use std::alloc::Global;

/// What messages are judged, routed and charged by: banks, currencies and countries, the instructions, and the charges.
#[derive(Drop)]
pub struct Directory {
    pub tables: RefTables,
    pub ssi: Ssi,
    pub charges: Charges,
}

/// The directory of the table files, each read and tested before the next: banks, currencies, countries, instructions, charges;
/// or why the first that fails wasn't taken.
pub fn read_directory<S: Source>(
    alloc: Global,
    files: &mut Tables<S>,
) -> Result<Directory, TableStop>
    ensures fine { IfOk result (HasDirectory S.Source files.old files.new) }
    ensures few { IfOk result (λ directory. IsTrue (few_decimals directory.tables.ccys)) }
    ensures instructions { IfOk result (λ directory. AreInstructions directory.tables directory.ssi) }
    ensures stopped { IfErr result (StopsDirectory S.Source files.old files.new) }
{
    let tables = read_known(alloc, files)?;
    let ssi = read_instructions(alloc, &tables, &mut files.ssi)?;
    let charges = read_charged(alloc, &tables, &mut files.charges)?;
    Ok(Directory {
        tables,
        ssi,
        charges,
    })
}
