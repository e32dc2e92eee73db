//! The tables of banks, currencies and countries.

ghost use Rattle.std.specs.Prelude.{◌≡◌, ◌≤◌, [], IfErr, IfOk, IfSome, IsTrue, None, map};
ghost use Rattle.corr_money.specs.Amounts.{most_decimals};
ghost use Rattle.ref_tables.specs.Refusals.{Tells, named};
ghost use Rattle.ref_tables.specs.Rows.{rows_of};
ghost use Rattle.ref_tables.specs.Seen.{decimals_in, few_decimals, has_head, is_listed_country};
ghost use Rattle.ref_tables.specs.Tables.{bank_in_row, bics_fault, ccy_of, ccys_fault, countries_fault, country_in_row, tables_fault, tables_of};
ghost use Rattle.ref_tables.specs.declared.fault.TableName.TheVariants as names;

use crate::banks::BankRow;
use crate::countries::CountryRow;
use crate::currencies::CurrencyRow;
use crate::fault::{TableFault, TableName};
use crate::keyed::read_keyed;
use corr_money::Ccy;
use indexmap::IndexMap;
use std::alloc::Global;
use std::marker::Model;

const MAX_BANKS: usize = 100000;

const MAX_CURRENCIES: usize = 1000;

const MAX_COUNTRIES: usize = 1000;

/// The banks, currencies and countries that are known.
///
/// Contracts see three lists in the order of the files' rows: the banks' heads with their branches, the currencies' codes
/// with their decimals, and the countries' codes with whether they are listed.
#[derive(Drop)]
pub struct RefTables {
    bics: IndexMap<[u8; 8], [u8; 3]>,
    ccys: IndexMap<[u8; 3], u8>,
    countries: IndexMap<[u8; 2], bool>,
}

impl Model for RefTables {
    ghost use Rattle.std.specs.Prelude.{IsTrue};
    ghost use Rattle.ref_tables.specs.Seen.{Tables, few_decimals};

    ghost Value = { Tables };

    ghost view = { λ t. record { bics = t.bics.entries; ccys = t.ccys.entries; countries = t.countries.entries } };

    ghost invariant = { λ t. IsTrue (few_decimals t.ccys.entries) };
}

impl RefTables {
    /// Whether a BIC of the table of banks has this head.
    pub fn has_bic(&self, head: &[u8; 8]) -> bool
        ensures { result ≡ has_head self.now head.now }
    {
        self.bics.contains_key(head)
    }

    /// The number of decimals of a currency; none where it is not in the table of currencies.
    #[tactic(auto, using(crate::proofs::laws::Decimals::lookup_few))]
    pub fn decimals(&self, c: Ccy) -> Option<u8>
        ensures value { result ≡ decimals_in self.now c.0 }
        ensures few { IfSome result (λ d. d ≤ most_decimals) }
    {
        self.ccys.get(&c.0).copied()
    }

    /// Whether a country's row says `Y`; a country without a row is not listed.
    pub fn listed(&self, country: &[u8; 2]) -> bool
        ensures { result ≡ is_listed_country self.now country.now }
    {
        self.countries.get(country).copied().unwrap_or(false)
    }
}

/// The tables with the banks of this file, and no currencies and no countries.
///
/// `Bad` tells the first row that fails, and why.
pub fn read_banks(alloc: Global, file: &[u8]) -> Result<RefTables, TableFault>
    ensures sound { IfOk result (λ t. bics_fault file.now ≡ None) }
    ensures value { IfOk result (λ t. t ≡ record { bics = map bank_in_row (rows_of file.now); ccys = []; countries = [] }) }
    ensures bad { IfErr result (Tells (named names.Bics (bics_fault file.now))) }
{
    let bics = read_keyed::<8, [u8; 3], BankRow>(
        alloc,
        &BankRow,
        TableName::Bics,
        MAX_BANKS,
        file,
    )?;
    Ok(RefTables {
        bics,
        ccys: IndexMap::new(alloc),
        countries: IndexMap::new(alloc),
    })
}

/// The same tables with the currencies of this file in place of theirs. Each has at most 4 decimals (`few`).
///
/// `Bad` tells the first row that fails, and why.
#[tactic(auto, using(crate::proofs::laws::Decimals::rows_few))]
pub fn with_currencies(
    alloc: Global,
    tables: RefTables,
    file: &[u8],
) -> Result<RefTables, TableFault>
    ensures sound { IfOk result (λ t. ccys_fault file.now ≡ None) }
    ensures value { IfOk result (λ t. t ≡ record tables { ccys = map ccy_of (rows_of file.now) }) }
    ensures few { IfOk result (λ t. IsTrue (few_decimals t.ccys)) }
    ensures bad { IfErr result (Tells (named names.Ccys (ccys_fault file.now))) }
{
    let ccys = read_keyed::<3, u8, CurrencyRow>(
        alloc,
        &CurrencyRow,
        TableName::Ccys,
        MAX_CURRENCIES,
        file,
    )?;
    Ok(RefTables { ccys, ..tables })
}

/// The same tables with the countries of this file in place of theirs. Each currency has at most 4 decimals (`few`).
///
/// `Bad` tells the first row that fails, and why.
pub fn with_countries(
    alloc: Global,
    tables: RefTables,
    file: &[u8],
) -> Result<RefTables, TableFault>
    ensures sound { IfOk result (λ t. countries_fault file.now ≡ None) }
    ensures value { IfOk result (λ t. t ≡ record tables { countries = map country_in_row (rows_of file.now) }) }
    ensures few { IfOk result (λ t. IsTrue (few_decimals t.ccys)) }
    ensures bad { IfErr result (Tells (named names.Countries (countries_fault file.now))) }
{
    let countries = read_keyed::<2, bool, CountryRow>(
        alloc,
        &CountryRow,
        TableName::Countries,
        MAX_COUNTRIES,
        file,
    )?;
    Ok(RefTables {
        countries,
        ..tables
    })
}

/// The tables that these three files hold (docs/tables.md).
///
/// `Bad` tells the first row that fails, and why, of the first file that has one. Each currency has at most 4 decimals
/// (`few`), as those ask who write an amount.
pub fn read_tables(
    alloc: Global,
    bics: &[u8],
    ccys: &[u8],
    countries: &[u8],
) -> Result<RefTables, TableFault>
    ensures sound { IfOk result (λ t. tables_fault bics.now ccys.now countries.now ≡ None) }
    ensures value { IfOk result (λ t. t ≡ tables_of bics.now ccys.now countries.now) }
    ensures few { IfOk result (λ t. IsTrue (few_decimals t.ccys)) }
    ensures bad { IfErr result (Tells (tables_fault bics.now ccys.now countries.now)) }
{
    let banks = read_banks(alloc, bics)?;
    let with_ccys = with_currencies(alloc, banks, ccys)?;
    with_countries(alloc, with_ccys, countries)
}
