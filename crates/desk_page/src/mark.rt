//! The markup of a page.

ghost use Rattle.std.specs.Prelude.{◌≡◌};
ghost use Rattle.desk_page.specs.Markup.{cell_markup, heading_markup, markup, table_markup, word_markup};

/// A piece of markup that every page has, or may have. None depends on what was read.
#[derive(Clone, Copy, Debug, PartialEq, Eq)]
pub enum Piece {
    /// What a page begins with, up to its title.
    PageBegin,
    /// What stands between the title and the style.
    StyleBegin,
    /// How text and tables look.
    StyleText,
    /// How cells look.
    StyleCells,
    /// How numbers look.
    StyleNumbers,
    /// How rows look in a narrow window.
    StyleNarrow,
    /// What stands between the style and the heading.
    StyleEnd,
    /// The end of the heading.
    HeadEnd,
    /// Between the bank and the day.
    On,
    /// The end of the page.
    PageEnd,
    /// The heading of what needs somebody.
    Needs,
    /// The heading of faulty messages.
    MendTitle,
    /// The heading of messages whose sender is asked.
    AskTitle,
    /// The heading of payments that may go back.
    ReturnTitle,
    /// The heading of messages that may want a row of a table.
    TablesTitle,
    /// The heading of messages that are handled by hand.
    ByHandTitle,
    /// The heading of messages that don't belong into the file.
    StrayTitle,
    /// The heading of payments whose debit lacks funds.
    FundTitle,
    /// The heading of payments whose credit has no room.
    RoomTitle,
    /// The heading of payments under the reference of another one.
    DisputedTitle,
    /// The heading of messages that want nothing.
    NothingTitle,
    /// The heading of messages that are in order.
    OrderTitle,
    /// The first columns of payments.
    PaymentColumns,
    /// The other columns of payments.
    StandingColumns,
    /// The heading of the accounts.
    Accounts,
    /// What stands before the currency of accounts.
    CurrencyBegin,
    /// What stands after it.
    CurrencyEnd,
    /// The first columns of accounts.
    AccountColumns,
    /// The other columns of accounts.
    RoomColumns,
    /// The beginning of a table.
    TableBegin,
    /// Its end.
    TableEnd,
    /// The beginning of a row.
    RowBegin,
    /// Its end.
    RowEnd,
    /// The beginning of a cell.
    CellBegin,
    /// That of a cell with a number.
    NumberBegin,
    /// The end of a cell.
    CellEnd,
    /// An empty cell.
    NoCell,
    /// Five empty cells.
    NoCells,
    /// A space.
    Space,
    /// Between two words.
    Comma,
    /// A bar, up to its least number.
    BarLeast,
    /// Between the least number and the greatest.
    BarGreatest,
    /// Between the greatest number and the one that is shown.
    BarValue,
    /// The end of a bar.
    BarEnd,
    /// A payment that is not entered yet.
    NotEntered,
    /// A payment that is booked, up to its place.
    BookedAt,
    /// A payment under the reference of another one, up to its place.
    ConflictAt,
    /// An account that has room for an amount by now.
    HasRoom,
    /// An account that lacks an amount.
    Lacks,
    /// Before the place of an entry.
    PlaceOf,
    /// A page of a statement, up to its account.
    PageOf,
    /// An advice.
    Advice,
    /// The entries that are booked ahead of their value date, with their columns.
    AheadBegin,
    /// The accounts with other banks, with their columns.
    NostrosBegin,
    /// A page of a statement is among the messages.
    Stated,
    /// None is.
    Unstated,
    /// The messages that leave, with their columns.
    LeavingBegin,
    /// A cell of a type, up to its number.
    TypeBegin,
    /// The messages to look at twice, with their columns.
    TwiceBegin,
}

/// A piece of markup.
#[tactic(auto, unfolding(crate::specs::Markup::markup))]
pub(crate) fn mark(piece: Piece) -> &'static [u8]
    ensures { result.now ≡ markup piece }
{
    match piece {
        Piece::PageBegin => {
            b"<!DOCTYPE html>\n<html lang=en>\n<head>\n<meta charset=utf-8>\n<meta name=viewport content='width=device-width'>\n<title>"
        }
        Piece::StyleBegin => b"</title>\n<style>\n",
        Piece::StyleText => {
            b"body { font-family: sans-serif; }\ntable { border-collapse: collapse; }\n"
        }
        Piece::StyleCells => {
            b"th, td { border: 1px solid silver; padding: 2px 6px; text-align: left; }\n"
        }
        Piece::StyleNumbers => b".n { text-align: right; }\n",
        Piece::StyleNarrow => {
            b"@media (max-width: 60em) { tr { display: block; border-top: 1px solid gray; } th, td { display: inline-block; border: 0; } }\n"
        }
        Piece::StyleEnd => b"</style>\n</head>\n<body>\n<h1>",
        Piece::HeadEnd => b"</h1>\n",
        Piece::On => b" on ",
        Piece::PageEnd => b"</body>\n</html>\n",
        _ => heading(piece),
    }
}

/// A heading, or a piece of one; of another piece what it is by those of tables and cells.
#[tactic(auto, unfolding(crate::specs::Markup::heading_markup))]
fn heading(piece: Piece) -> &'static [u8]
    ensures { result.now ≡ heading_markup piece }
{
    match piece {
        Piece::Needs => b"<h2>Needs somebody</h2>\n",
        Piece::MendTitle => {
            b"<h3>Tell the sender what is faulty, to mend it and to send it again</h3>\n"
        }
        Piece::AskTitle => b"<h3>Ask the sender</h3>\n",
        Piece::ReturnTitle => b"<h3>Return it, or what its code says in place of that</h3>\n",
        Piece::TablesTitle => {
            b"<h3>Look at our tables, and run it again; else tell the sender</h3>\n"
        }
        Piece::ByHandTitle => b"<h3>Handle it by hand</h3>\n",
        Piece::StrayTitle => b"<h3>Find out how it came into the file</h3>\n",
        Piece::FundTitle => {
            b"<h3>Funds are lacking: the sender funds it, and sends it under a new reference</h3>\n"
        }
        Piece::RoomTitle => {
            b"<h3>Past a ceiling: raise it by set-limits, and the sender sends it under a new reference</h3>\n"
        }
        Piece::DisputedTitle => {
            b"<h3>Another payment has the reference: find out which is right</h3>\n"
        }
        Piece::NothingTitle => b"<h2>Nothing to do</h2>\n",
        Piece::OrderTitle => b"<h2>In order</h2>\n",
        Piece::Accounts => b"<h2>Accounts</h2>\n",
        Piece::CurrencyBegin => b"<h3>",
        Piece::CurrencyEnd => b"</h3>\n",
        _ => table_mark(piece),
    }
}

/// A piece of a table around its cells; of another piece what it is by those of cells.
#[tactic(auto, unfolding(crate::specs::Markup::table_markup))]
fn table_mark(piece: Piece) -> &'static [u8]
    ensures { result.now ≡ table_markup piece }
{
    match piece {
        Piece::AheadBegin => {
            b"<h2>Booked ahead of the value date</h2>\n<table>\n<tr><th>Place</th><th>Reference</th><th>Booked on</th><th>Value date</th><th>Account</th><th>Amount</th></tr>\n"
        }
        Piece::NostrosBegin => {
            b"<h2>Statements of our accounts with other banks</h2>\n<table>\n<tr><th>Account</th><th>Currency</th><th>Bank</th><th>Statement</th></tr>\n"
        }
        Piece::LeavingBegin => {
            b"<h2>Messages that leave for what is booked on this day</h2>\n<table>\n<tr><th>Receiver</th><th>Type</th><th>How many</th></tr>\n"
        }
        Piece::TwiceBegin => {
            b"<h2>Look at twice: an earlier message has the UETR, or the sender, field 20 and amount</h2>\n<table>\n<tr><th>No</th><th>Reference</th><th>Sender</th><th>Field 20</th><th>Amount</th></tr>\n"
        }
        Piece::PaymentColumns => {
            b"<tr><th>No</th><th>Reference</th><th>Sender</th><th>Field 20</th><th>Amount</th>"
        }
        Piece::StandingColumns => b"<th>Value date</th><th>Beneficiary</th><th>What</th></tr>\n",
        Piece::AccountColumns => b"<tr><th>Account</th><th>Kind</th><th>Owner</th><th>Balance</th>",
        Piece::RoomColumns => {
            b"<th>Floor</th><th>Ceiling</th><th>To the floor</th><th>To the ceiling</th><th>Bar</th></tr>\n"
        }
        Piece::TableBegin => b"<table>\n",
        Piece::TableEnd => b"</table>\n",
        Piece::RowBegin => b"<tr>",
        Piece::RowEnd => b"</tr>\n",
        _ => cell_mark(piece),
    }
}

/// A piece of a cell that any table may have; of another piece what it is by those of one table.
#[tactic(auto, unfolding(crate::specs::Markup::cell_markup))]
fn cell_mark(piece: Piece) -> &'static [u8]
    ensures { result.now ≡ cell_markup piece }
{
    match piece {
        Piece::CellBegin => b"<td>",
        Piece::NumberBegin => b"<td class=n>",
        Piece::CellEnd => b"</td>",
        Piece::NoCell => b"<td></td>",
        Piece::NoCells => b"<td colspan=5></td>",
        Piece::Space => b" ",
        Piece::Comma => b", ",
        Piece::BarLeast => b"<td><meter min=",
        Piece::BarGreatest => b" max=",
        Piece::BarValue => b" value=",
        Piece::BarEnd => b"></meter></td>",
        _ => word_mark(piece),
    }
}

/// A piece of a cell that says something in words; nothing of another piece.
#[tactic(auto, unfolding(crate::specs::Markup::word_markup))]
fn word_mark(piece: Piece) -> &'static [u8]
    ensures { result.now ≡ word_markup piece }
{
    match piece {
        Piece::NotEntered => b"<td>not entered yet</td>",
        Piece::BookedAt => b"<td>booked, place ",
        Piece::ConflictAt => b"<td>another payment has this reference, place ",
        Piece::HasRoom => b" has room by now",
        Piece::Lacks => b" lacks ",
        Piece::PlaceOf => b", place ",
        Piece::PageOf => b"<td>a page of a statement of ",
        Piece::Advice => b"<td>an advice</td>",
        Piece::Stated => b"<td>in the file</td>",
        Piece::Unstated => b"<td>none in the file</td>",
        Piece::TypeBegin => b"<td>MT",
        _ => b"",
    }
}
