//! The messages of the file, in groups.

ghost use Rattle.std.specs.Prelude.{◌≡◌, ◌++◌, All, OnOk};
ghost use Rattle.std.specs.List.{flat_map, list_any};
ghost use Rattle.desk_page.specs.inner.Books.{AreSound, chart_in, entries_in};
ghost use Rattle.desk_page.specs.Groups.{is_in};
ghost use Rattle.desk_page.specs.Messages.{group_begin, group_lines, group_table, group_title, line_in, needs_section, rest_section, whole_table};
ghost use Rattle.desk_page.specs.Row.{IsShown};

use crate::books::Books;
use crate::group::{Group, is_in};
use crate::mark::{Piece, mark};
use crate::message_rows::put_row;
use crate::row::Row;
use corr_text::{Memory, Text};
use std::alloc::Global;

/// What is to be done with the messages of a group.
fn title(group: Group) -> Piece
    ensures { result ≡ group_title group }
{
    match group {
        Group::Mend => Piece::MendTitle,
        Group::Ask => Piece::AskTitle,
        Group::Return => Piece::ReturnTitle,
        Group::Tables => Piece::TablesTitle,
        Group::ByHand => Piece::ByHandTitle,
        Group::Stray => Piece::StrayTitle,
        Group::Fund => Piece::FundTitle,
        Group::Room => Piece::RoomTitle,
        Group::Disputed => Piece::DisputedTitle,
        Group::Nothing => Piece::NothingTitle,
        Group::InOrder => Piece::OrderTitle,
    }
}

/// Adds what stands ahead of the messages of a group.
fn put_begin(group: Group, out: &mut Text) -> Result<(), Memory>
    ensures { OnOk result (out.new ≡ out.old ++ group_begin group) }
{
    out.push_all(&[mark(title(group)), mark(Piece::TableBegin)])?;
    out.push_all(&[mark(Piece::PaymentColumns), mark(Piece::StandingColumns)])
}

/// Adds the row of the `n`-th message where it is of a group.
fn put_row_in(
    alloc: Global,
    books: Books<'_>,
    group: Group,
    n: u64,
    row: &Row,
    out: &mut Text,
) -> Result<(), Memory>
    requires sound { AreSound books }
    requires shown { IsShown (chart_in books) row.now }
    ensures { OnOk result (out.new ≡ out.old ++ line_in (chart_in books.entry) (entries_in books.entry) group n row.now) }
{
    if is_in(group, row) {
        return put_row(alloc, books, n, row, out);
    }
    Ok(())
}

/// Adds the rows of the messages of a group, each with its number in the file.
fn put_lines(
    alloc: Global,
    books: Books<'_>,
    group: Group,
    rows: &[Row],
    out: &mut Text,
) -> Result<(), Memory>
    requires sound { AreSound books }
    requires shown { All (IsShown (chart_in books)) rows.now }
    ensures { OnOk result (out.new ≡ out.old ++ group_lines (chart_in books.entry) (entries_in books.entry) group rows.now) }
{
    for (at, row) in rows.iter().enumerate() {
        put_row_in(alloc, books, group, at as u64 + 1, row, out)?;
    }
    Ok(())
}

/// Adds the table of a group.
fn put_whole(
    alloc: Global,
    books: Books<'_>,
    rows: &[Row],
    group: Group,
    out: &mut Text,
) -> Result<(), Memory>
    requires sound { AreSound books }
    requires shown { All (IsShown (chart_in books)) rows.now }
    ensures { OnOk result (out.new ≡ out.old ++ whole_table (chart_in books.entry) (entries_in books.entry) rows.now group) }
{
    put_begin(group, out)?;
    put_lines(alloc, books, group, rows, out)?;
    out.push(mark(Piece::TableEnd))
}

/// Whether a message is of a group.
fn is_there(group: Group, rows: &[Row]) -> bool
    ensures { result ≡ list_any (is_in group) rows.now }
{
    rows.iter().any(|row| is_in(group, row))
}

/// Adds the table of a group where a message is of it.
fn put_table(
    alloc: Global,
    books: Books<'_>,
    rows: &[Row],
    group: Group,
    out: &mut Text,
) -> Result<(), Memory>
    requires sound { AreSound books }
    requires shown { All (IsShown (chart_in books)) rows.now }
    ensures { OnOk result (out.new ≡ out.old ++ group_table (chart_in books.entry) (entries_in books.entry) rows.now group) }
{
    if is_there(group, rows) {
        return put_whole(alloc, books, rows, group, out);
    }
    Ok(())
}

/// Adds the tables of groups.
fn put_tables(
    alloc: Global,
    books: Books<'_>,
    rows: &[Row],
    groups: &[Group],
    out: &mut Text,
) -> Result<(), Memory>
    requires sound { AreSound books }
    requires shown { All (IsShown (chart_in books)) rows.now }
    ensures { OnOk result (out.new ≡ out.old ++ flat_map (group_table (chart_in books.entry) (entries_in books.entry) rows.now) groups.now) }
{
    for group in groups {
        put_table(alloc, books, rows, *group, out)?;
    }
    Ok(())
}

/// Adds what needs somebody, by what to do.
#[tactic(auto, unfolding(crate::specs::Messages::needs_section))]
pub(crate) fn put_needs(
    alloc: Global,
    books: Books<'_>,
    rows: &[Row],
    out: &mut Text,
) -> Result<(), Memory>
    requires sound { AreSound books }
    requires shown { All (IsShown (chart_in books)) rows.now }
    ensures { OnOk result (out.new ≡ out.old ++ needs_section (chart_in books.entry) (entries_in books.entry) rows.now) }
{
    out.push(mark(Piece::Needs))?;
    let needing = [
        Group::Mend,
        Group::Ask,
        Group::Return,
        Group::Tables,
        Group::ByHand,
        Group::Stray,
        Group::Fund,
        Group::Room,
        Group::Disputed,
    ];
    put_tables(alloc, books, rows, &needing, out)
}

/// Adds all other messages.
#[tactic(auto, unfolding(crate::specs::Messages::rest_section))]
pub(crate) fn put_rest(
    alloc: Global,
    books: Books<'_>,
    rows: &[Row],
    out: &mut Text,
) -> Result<(), Memory>
    requires sound { AreSound books }
    requires shown { All (IsShown (chart_in books)) rows.now }
    ensures { OnOk result (out.new ≡ out.old ++ rest_section (chart_in books.entry) (entries_in books.entry) rows.now) }
{
    put_tables(alloc, books, rows, &[Group::Nothing, Group::InOrder], out)
}
