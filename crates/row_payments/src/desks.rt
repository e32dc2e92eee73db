//! Instructions, accounts and charges that rows give.

use crate::books::book_in;
use day_model::Accounts;
use ref_tables::{Charges, RefTables, TableFault, read_charges};
use row_messages::given::{section, tables_in};
use row_words::stop::Stop;
use ssi_versions::Ssi;
use std::alloc::Global;

/// What a message is planned with.
#[derive(Drop)]
pub struct Desk {
    pub tables: RefTables,
    pub ssi: Ssi,
    pub accounts: Accounts,
    pub charges: Charges,
}

fn instructions(alloc: Global, file: &[u8], tables: &RefTables) -> Result<Ssi, Stop> {
    match Ssi::read(alloc, file, tables) {
        Ok(ssi) => Ok(ssi),
        Err(TableFault::Memory) => Err(Stop::Memory),
        Err(_) => Err(Stop::Unreadable),
    }
}

fn charges(alloc: Global, file: &[u8], tables: &RefTables) -> Result<Charges, Stop> {
    match read_charges(alloc, file, tables) {
        Ok(charges) => Ok(charges),
        Err(TableFault::Memory) => Err(Stop::Memory),
        Err(_) => Err(Stop::Unreadable),
    }
}

/// What follows the banks, the currencies and the countries of a text.
fn after_tables(text: &[u8]) -> &[u8] {
    let (_, rest) = section(text);
    let (_, rest) = section(rest);
    let (_, rest) = section(rest);
    rest
}

/// The instructions, the accounts, the banks, currencies and countries, and the charges of a text, with an empty line between two;
/// what comes last may be left out.
pub fn open_desk(alloc: Global, text: &[u8]) -> Result<Desk, Stop> {
    let (ssi, rest) = section(text);
    let (accounts, rest) = section(rest);
    let tables = tables_in(alloc, rest)?;
    let charges = charges(alloc, after_tables(rest), &tables)?;
    let ssi = instructions(alloc, ssi, &tables)?;
    let accounts = book_in(alloc, accounts)?;
    Ok(Desk {
        tables,
        ssi,
        accounts,
        charges,
    })
}
