//! Tables, as words and as parts of an answer.

use ref_tables::{RefTables, TableFault, TableName, Why, read_tables};
use row_words::answer::Answer;
use row_words::stop::Stop;
use row_words::words::Words;
use std::alloc::Global;

/// The files of banks, of currencies and of countries.
///
/// Tables are made of them where they are asked, and let go there at once: each way out of a function that holds tables is dear to
/// prove.
#[derive(Clone, Copy)]
pub struct Files<'a> {
    pub bics: &'a [u8],
    pub ccys: &'a [u8],
    pub countries: &'a [u8],
}

/// The files of the next three words.
pub fn read_files<'a>(words: &mut Words<'a>) -> Result<Files<'a>, Stop> {
    Ok(Files {
        bics: words.next()?,
        ccys: words.next()?,
        countries: words.next()?,
    })
}

/// The tables of these files. `Unreadable`: a row is refused.
pub fn tables(alloc: Global, files: Files) -> Result<RefTables, Stop> {
    match read_tables(alloc, files.bics, files.ccys, files.countries) {
        Ok(tables) => Ok(tables),
        Err(TableFault::Memory) => Err(Stop::Memory),
        Err(TableFault::Bad { .. }) => Err(Stop::Unreadable),
    }
}

fn name(table: TableName) -> &'static [u8] {
    match table {
        TableName::Bics => b"bics",
        TableName::Ccys => b"ccys",
        TableName::Countries => b"countries",
        TableName::Accounts => b"accounts",
        TableName::Ssi => b"ssi",
        TableName::Charges => b"charges",
    }
}

/// The name of a reason, and its number where it has one.
fn reason(why: Why) -> (&'static [u8], Option<u32>) {
    match why {
        Why::Columns => (b"columns", None),
        Why::Value { col } => (b"value", Some(col as u32)),
        Why::Double { row } => (b"double", Some(row)),
        Why::Bic => (b"bic", None),
        Why::Currency => (b"currency", None),
        Why::Limits => (b"limits", None),
        Why::Overlap { row } => (b"overlap", Some(row)),
        Why::Span => (b"span", None),
        Why::Rows => (b"rows", None),
    }
}

/// Adds why a table is refused: its name, the row and the reason.
pub fn put_table_fault(fault: TableFault, answer: &mut Answer) -> Result<(), Stop> {
    let TableFault::Bad { table, row, why } = fault else {
        return Err(Stop::Memory);
    };
    answer.word(name(table))?;
    answer.number(row as u64)?;
    let (reason, number) = reason(why);
    answer.word(reason)?;
    match number {
        Some(number) => Ok(answer.number(number as u64)?),
        None => Ok(()),
    }
}
