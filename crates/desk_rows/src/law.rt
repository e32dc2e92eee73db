//! Laws of balances and of their rows, each carried by the contract of a function.

ghost use Rattle.desk_rows.specs.Plain.{RowsArePlain};
ghost use Rattle.desk_rows.specs.Reading.{EntriesReadBack, RowsReadBack};
ghost use Rattle.desk_rows.specs.Until.{BalancesCancelUntil};

/// The balances of the accounts of each currency sum to 0 after the entries of a legal history up to any day.
pub fn balances_cancel()
    ensures { BalancesCancelUntil }
{}

/// The row of each account has ten cells with commas between them, and no cell has a comma, a quote or a line end, so that none needs
/// quotes.
pub fn rows_are_plain()
    ensures { RowsArePlain }
{}

/// A reader of rows with commas (RFC 4180) reads the cells that were written, whatever they are and whatever follows their row, and goes
/// on with what follows: of the row of an entry of a legal history its fourteen.
pub fn entries_read_back()
    ensures rows { RowsReadBack }
    ensures entries { EntriesReadBack }
{}
