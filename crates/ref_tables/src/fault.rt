//! Why a table file is refused.

ghost use Rattle.std.specs.Prelude.{◌≡◌, ◌<◌, ◌^◌};
ghost use Rattle.ref_tables.specs.declared.fault.TableFault.TheVariants.{Memory as NoMemory};

use corr_text::Memory;
use std::alloc::{AllocError, AllocFailed};

/// A table, by its name: `bics`, `ccys`, `countries`, `accounts`, `ssi` or `charges` (docs/tables.md).
#[derive(Clone, Copy, Debug, PartialEq, Eq)]
pub enum TableName {
    Bics,
    Ccys,
    Countries,
    Accounts,
    Ssi,
    Charges,
}

/// What is wrong with a row, or with the whole file (docs/tables.md, "Refusals").
#[derive(Clone, Copy, Debug, PartialEq, Eq)]
pub enum Why {
    /// The row has another number of columns than the table.
    Columns,
    /// Column `col`, from 1, is the first that is not of its form.
    Value { col: u8 },
    /// An earlier row, the first of them at `row`, has the same key.
    Double { row: u32 },
    /// A bank that the row names is not in the table of banks; or another bank owns a `C` or `F` account, or the home bank a `V` or
    /// `N` account.
    Bic,
    /// The row's currency is not in the table of currencies.
    Currency,
    /// Not floor ≤ opening ≤ ceiling, or one of them is 10^14 minor units or more in size.
    Limits,
    /// An earlier row, the first of them at `row`, speaks of a day that this one speaks of too.
    Overlap { row: u32 },
    /// The day that ends the row is not after its first day.
    Span,
    /// The file has more than 8 MiB, or more rows than its table may have.
    Rows,
}

/// The first row of a table that fails, from 1, or 0 for the whole file, and why; or out of memory.
#[derive(Debug, Drop)]
pub enum TableFault {
    Bad {
        table: TableName,
        row: u32,
        why: Why,
    },
    Memory,
}

/// The fault of a row of a table.
pub fn bad(table: TableName, row: usize, why: Why) -> TableFault
    requires { row < 2 ^ 32 }
    ensures { result ≡ TableFault.Bad table row why }
{
    TableFault::Bad {
        table,
        row: row as u32,
        why,
    }
}

impl From<Memory> for TableFault {
    ghost from_gives = { λ _ e. e ≡ NoMemory };

    fn from(_e: Memory) -> TableFault {
        TableFault::Memory
    }
}

impl From<AllocError> for TableFault {
    ghost from_gives = { λ _ e. e ≡ NoMemory };

    fn from(_e: AllocError) -> TableFault {
        TableFault::Memory
    }
}

impl<T: Drop> From<AllocFailed<T>> for TableFault {
    ghost from_gives = { λ _ e. e ≡ NoMemory };

    fn from(_e: AllocFailed<T>) -> TableFault {
        TableFault::Memory
    }
}
