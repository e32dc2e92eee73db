//! The table of instructions.

ghost use Rattle.std.specs.Prelude.{◌≡◌, ◌++◌, ◌∷◌, [], IfErr, IfOk, IfSome, None, filter, length, map, position};
ghost use Rattle.std.specs.List.Sorted.{IsPermutation};
ghost use Rattle.std.specs.Option.{option_copied};
ghost use Rattle.ref_tables.specs.Refusals.{Tells, named};
ghost use Rattle.ref_tables.specs.Rows.{rows_of};
ghost use Rattle.ssi_versions.specs.Index.{HasSpan, IsInDayOrder, has_bank_key, key_by_bank, places_where};
ghost use Rattle.ssi_versions.specs.Instruction.{instruction_at, is_in_force, naming};
ghost use Rattle.ssi_versions.specs.InstructionList.{AreInstructions, IsInForm};
ghost use Rattle.ssi_versions.specs.Rows.{instruction_of, overlaps, ssi_fault};

use crate::index;
use crate::reading::enter_rows;
use crate::row::SsiRow;
use corr_ids::{Bic, Day, with_branch};
use corr_money::Ccy;
use corr_text::Memory;
use indexmap::IndexMap;
use ref_tables::{RefTables, TableFault, TableName, Why, bad, read_rows};
use std::alloc::Global;
use std::marker::Model;

const MAX_ROWS: usize = 10000;

/// The instructions of a table. Contracts see the list of its rows.
#[derive(Drop)]
pub struct Ssi {
    rows: Vec<SsiRow>,
    groups: IndexMap<[u8; 14], Vec<usize>>,
}

impl Model for Ssi {
    ghost use Rattle.ssi_versions.specs.Index.{Instructions, IsTable};

    ghost Value = { Instructions };

    ghost view = { λ s. s.rows.items };

    ghost invariant = { λ s. IsTable s.rows.items s.groups.entries };
}

impl Ssi {
    /// No instruction yet.
    pub(crate) fn new(alloc: Global) -> Ssi
        ensures { result ≡ [] }
    {
        Ssi {
            rows: Vec::new(alloc),
            groups: IndexMap::new(alloc),
        }
    }

    /// The number of rows.
    pub(crate) fn len(&self) -> usize
        ensures { result ≡ length self.now }
    {
        self.rows.len()
    }

    /// The table with one more row.
    pub(crate) fn enter(self, alloc: Global, row: SsiRow) -> Result<Ssi, Memory>
        requires form { IsInForm row }
        requires span { HasSpan row }
        requires alone { position (overlaps row) self ≡ None }
        ensures { IfOk result (λ s. s ≡ self ++ row ∷ []) }
    {
        let Ssi {
            mut rows,
            mut groups,
        } = self;
        let key = index::key(row.ccy, row.bank.bytes());
        let at = index::begun_by(rows.as_slice(), index::places_of(&groups, &key), row.from);
        index::note(alloc, &mut groups, key, at, rows.len())?;
        rows.push(row)?;
        Ok(Ssi { rows, groups })
    }

    // Where the rows of a currency and a bank's text stand, and perhaps rows of other banks, in the order of their days.
    fn places(&self, ccy: Ccy, bank: &[u8]) -> &[usize]
        ensures all { IsPermutation (places_where (has_bank_key (key_by_bank ccy.0 bank.now)) 0 self.now) result.now }
        ensures order { IsInDayOrder self.now result.now }
    {
        index::places_of(&self.groups, &index::key(ccy, bank))
    }

    /// The first row that overlaps this one. Where none does, it bisects the rows of its bank.
    pub(crate) fn first_overlap(&self, row: &SsiRow) -> Option<usize>
        ensures { result ≡ position (overlaps row.now) self.now }
    {
        let rows = self.rows.as_slice();
        if !index::shares_any_day(rows, self.places(row.ccy, row.bank.bytes()), row) {
            return None;
        }
        rows.iter().position(|other| index::overlaps(row, other))
    }

    // The row in force that names its bank by this text.
    fn naming(&self, ccy: Ccy, bank: &[u8], day: Day) -> Option<&SsiRow>
        ensures form { IfSome result (λ r. IsInForm r.now) }
        ensures row { option_copied result ≡ naming bank.now (filter (is_in_force ccy day) self.now) }
    {
        let rows = self.rows.as_slice();
        let at = index::first_in_force(rows, self.places(ccy, bank), ccy, bank, day);
        index::row_at(rows, at)
    }

    /// The instructions that this file holds, under the tables `t` (docs/tables.md, "ssi").
    ///
    /// `Bad` tells the first row that fails, from 1, and why: its columns are not of their forms, `t` lacks a bank or the
    /// currency, the day that ends it is not after its first, or it shares a day with an earlier row of its currency and
    /// bank text; row 0 where the file is too large. `Memory` is out of memory.
    #[tactic(auto, using(ref_tables::proofs::laws::Records::rows_within_some))]
    pub fn read(alloc: Global, file: &[u8], t: &RefTables) -> Result<Ssi, TableFault>
        ensures instructions { IfOk result (λ s. AreInstructions t.now s) }
        ensures sound { IfOk result (λ s. ssi_fault t.now file.now ≡ None) }
        ensures value { IfOk result (λ s. s ≡ map instruction_of (rows_of file.now)) }
        ensures bad { IfErr result (Tells (named TableName.Ssi (ssi_fault t.now file.now))) }
    {
        match read_rows(alloc, file, MAX_ROWS)? {
            Some(rows) => enter_rows(alloc, t, rows.as_slice()),
            None => Err(bad(TableName::Ssi, 0, Why::Rows)),
        }
    }

    /// The instruction by which a bank is paid in a currency on a value date: among the rows in force on that day the
    /// one of the bank's 11 characters, else of its first 8, else of `*`; none where there is none of these. Takes no memory.
    pub fn at(&self, ccy: Ccy, bank: &Bic, day: Day) -> Option<&SsiRow>
        ensures form { IfSome result (λ r. IsInForm r.now) }
        ensures row { option_copied result ≡ instruction_at self.now ccy bank.now day }
    {
        if let Some(row) = self.naming(ccy, &with_branch(bank), day) {
            return Some(row);
        }
        if let Some(row) = self.naming(ccy, &bank.head, day) {
            return Some(row);
        }
        self.naming(ccy, b"*", day)
    }
}
