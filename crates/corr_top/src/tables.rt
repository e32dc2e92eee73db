//! The table files, read and tested.

ghost use Rattle.std.specs.Prelude.{◌≡◌, ℕ, List, [], Option, IfOk, IfErr, IsTrue, map};
ghost use Rattle.ref_tables.specs.AccountList.{AreAccounts};
ghost use Rattle.ref_tables.specs.Charges.{charge_in_row, charges_fault};
ghost use Rattle.ref_tables.specs.Accounts.{account_of, accounts_fault};
ghost use Rattle.ref_tables.specs.Refusals.{named};
ghost use Rattle.ref_tables.specs.Rows.{most_table_bytes, rows_of};
ghost use Rattle.ref_tables.specs.Seen.{few_decimals};
ghost use Rattle.ref_tables.specs.Tables.{bank_in_row, bics_fault, ccy_of, ccys_fault, countries_fault, country_in_row};
ghost use Rattle.ref_tables.specs.declared.fault.TableName.TheVariants as names;
ghost use Rattle.ssi_versions.specs.InstructionList.{AreInstructions};
ghost use Rattle.ssi_versions.specs.Rows.{instruction_of, ssi_fault};
ghost use Rattle.corr_top.specs.inner.Tables.{HasKnown, HasLent, StopsKnown, StopsLent};
ghost use Rattle.corr_top.specs.Passing.{Bad, IsFine, StopsAtTable};
ghost use Rattle.corr_top.specs.Reading.{Took};

use crate::reading::{ReadStop, read_whole};
use crate::room::Tables;
use crate::status::Status;
use corr_ids::Bic;
use corr_io::Source;
use corr_text::Text;
use ref_tables::{
    AccountRow, Charges, RefTables, TableFault, TableName, Why, read_accounts, read_banks,
    read_charges, with_countries, with_currencies,
};
use ssi_versions::Ssi;
use std::alloc::Global;

/// The most bytes that a table file has: 8 MiB.
pub const TABLE_LIMIT: usize = 8_388_608;

/// Why a table was not taken.
#[derive(Clone, Copy)]
pub enum TableStop {
    /// Its source failed: the count of faults before and after.
    Fault {
        before: u64,
        after: u64,
    },
    /// It fails a test: its first row that does, and why.
    Bad {
        table: TableName,
        row: u32,
        why: Why,
    },
    /// There was no memory.
    Memory,
}

impl From<ReadStop> for TableStop {
    ghost use Rattle.corr_top.specs.inner.Stops.{table_stop_of_read};

    ghost from_gives = { λ stop result. result ≡ table_stop_of_read stop };

    fn from(stop: ReadStop) -> TableStop {
        match stop {
            ReadStop::Fault { before, after } => TableStop::Fault { before, after },
            ReadStop::Memory => TableStop::Memory,
        }
    }
}

impl From<TableFault> for TableStop {
    ghost use Rattle.corr_top.specs.inner.Stops.{table_stop_of_fault};

    ghost from_gives = { λ fault stop. stop ≡ table_stop_of_fault fault };

    fn from(fault: TableFault) -> TableStop {
        match fault {
            TableFault::Bad { table, row, why } => TableStop::Bad { table, row, why },
            TableFault::Memory => TableStop::Memory,
        }
    }
}

impl From<TableStop> for Status {
    ghost use Rattle.corr_top.specs.Stops.{status_of_table};

    ghost from_gives = { λ stop status. status ≡ status_of_table stop };

    fn from(stop: TableStop) -> Status {
        match stop {
            TableStop::Fault { before, after } => Status::ReadFault { before, after },
            TableStop::Bad { table, row, why } => Status::Table { table, row, why },
            TableStop::Memory => Status::Memory,
        }
    }
}

/// The bytes of a table's file up to its end, or one more than the limit.
fn read_table<S: Source>(alloc: Global, source: &mut S) -> Result<Text, TableStop>
    ensures took { IfOk result (Took S.left S.faults most_table_bytes source.old source.new) }
    ensures stopped { IfErr result (λ stop. (file : List ℕ) (fault : Option Bad) → StopsAtTable S.Source source.old source.new file fault stop) }
{
    Ok(read_whole(alloc, source, TABLE_LIMIT)?)
}

/// What the table of banks says, with no currencies and no countries.
fn read_bics<S: Source>(alloc: Global, source: &mut S) -> Result<RefTables, TableStop>
    ensures fine { IfOk result (λ known. (bics : List ℕ) × IsFine S.Source source.old source.new bics (named names.Bics (bics_fault bics))
        × (known ≡ record { bics = map bank_in_row (rows_of bics); ccys = []; countries = [] })) }
    ensures stopped { IfErr result (λ stop. (bics : List ℕ) × StopsAtTable S.Source source.old source.new bics (named names.Bics (bics_fault bics)) stop) }
{
    let file = read_table(alloc, source)?;
    Ok(read_banks(alloc, file.bytes())?)
}

/// What the table of currencies adds to these tables.
fn read_ccys<S: Source>(
    alloc: Global,
    known: RefTables,
    source: &mut S,
) -> Result<RefTables, TableStop>
    ensures fine { IfOk result (λ more. (ccys : List ℕ) × IsFine S.Source source.old source.new ccys (named names.Ccys (ccys_fault ccys))
        × (more ≡ record known { ccys = map ccy_of (rows_of ccys) })) }
    ensures stopped { IfErr result (λ stop. (ccys : List ℕ) × StopsAtTable S.Source source.old source.new ccys (named names.Ccys (ccys_fault ccys)) stop) }
{
    let file = read_table(alloc, source)?;
    Ok(with_currencies(alloc, known, file.bytes())?)
}

/// What the table of countries adds to these tables.
fn read_countries<S: Source>(
    alloc: Global,
    known: RefTables,
    source: &mut S,
) -> Result<RefTables, TableStop>
    ensures fine { IfOk result (λ more. (countries : List ℕ) × IsFine S.Source source.old source.new countries (named names.Countries (countries_fault countries))
        × (more ≡ record known { countries = map country_in_row (rows_of countries) })) }
    ensures few { IfOk result (λ more. IsTrue (few_decimals more.ccys)) }
    ensures stopped { IfErr result (λ stop. (countries : List ℕ) × StopsAtTable S.Source source.old source.new countries (named names.Countries (countries_fault countries)) stop) }
{
    let file = read_table(alloc, source)?;
    Ok(with_countries(alloc, known, file.bytes())?)
}

/// What the tables of banks and currencies say, the first read and tested before the second, with no countries; or why the first
/// that fails wasn't taken.
pub fn read_lent<S: Source>(alloc: Global, files: &mut Tables<S>) -> Result<RefTables, TableStop>
    ensures fine { IfOk result (HasLent S.Source files.old files.new) }
    ensures stopped { IfErr result (StopsLent S.Source files.old files.new) }
{
    let banks = read_bics(alloc, &mut files.bics)?;
    read_ccys(alloc, banks, &mut files.ccys)
}

/// What the tables of banks, currencies and countries say, each read and tested before the next; or why the first that fails
/// wasn't taken.
pub fn read_known<S: Source>(alloc: Global, files: &mut Tables<S>) -> Result<RefTables, TableStop>
    ensures fine { IfOk result (HasKnown S.Source files.old files.new) }
    ensures few { IfOk result (λ known. IsTrue (few_decimals known.ccys)) }
    ensures stopped { IfErr result (StopsKnown S.Source files.old files.new) }
{
    let banks = read_bics(alloc, &mut files.bics)?;
    let with_ccys = read_ccys(alloc, banks, &mut files.ccys)?;
    read_countries(alloc, with_ccys, &mut files.countries)
}

/// The rows of the table of accounts of a home bank, or why it wasn't taken.
pub fn read_rows<S: Source>(
    alloc: Global,
    home: &Bic,
    known: &RefTables,
    source: &mut S,
) -> Result<Vec<AccountRow>, TableStop>
    ensures fine { IfOk result (λ rows. (file : List ℕ) × IsFine S.Source source.old source.new file (named names.Accounts (accounts_fault home.now.head known.now file))
        × (rows.items ≡ map (account_of known.now) (rows_of file))) }
    ensures accounts { IfOk result (λ rows. AreAccounts home.now.head known.now rows.items) }
    ensures stopped { IfErr result (λ stop. (file : List ℕ) × StopsAtTable S.Source source.old source.new file (named names.Accounts (accounts_fault home.now.head known.now file)) stop) }
{
    let file = read_table(alloc, source)?;
    Ok(read_accounts(alloc, file.bytes(), home, known)?)
}

/// The table of instructions, or why it wasn't taken.
pub fn read_instructions<S: Source>(
    alloc: Global,
    known: &RefTables,
    source: &mut S,
) -> Result<Ssi, TableStop>
    ensures fine { IfOk result (λ ssi. (file : List ℕ) × IsFine S.Source source.old source.new file (named names.Ssi (ssi_fault known.now file))
        × (ssi ≡ map instruction_of (rows_of file))) }
    ensures instructions { IfOk result (λ ssi. AreInstructions known.now ssi) }
    ensures stopped { IfErr result (λ stop. (file : List ℕ) × StopsAtTable S.Source source.old source.new file (named names.Ssi (ssi_fault known.now file)) stop) }
{
    let file = read_table(alloc, source)?;
    Ok(Ssi::read(alloc, file.bytes(), known)?)
}

/// The table of charges, or why it wasn't taken.
pub fn read_charged<S: Source>(
    alloc: Global,
    known: &RefTables,
    source: &mut S,
) -> Result<Charges, TableStop>
    ensures fine { IfOk result (λ charges. (file : List ℕ) × IsFine S.Source source.old source.new file (named names.Charges (charges_fault known.now file))
        × (charges ≡ map charge_in_row (rows_of file))) }
    ensures stopped { IfErr result (λ stop. (file : List ℕ) × StopsAtTable S.Source source.old source.new file (named names.Charges (charges_fault known.now file)) stop) }
{
    let file = read_table(alloc, source)?;
    Ok(read_charges(alloc, file.bytes(), known)?)
}
