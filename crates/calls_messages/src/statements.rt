//! Pages of statements as messages hold them.

ghost use Rattle.std.specs.Prelude.{All, IsTrue};
ghost use Rattle.fin_contents.specs.Writing.{IsReadable};
ghost use Rattle.mt950.specs.Joining.{IsSmallLine};
ghost use Rattle.mt950.specs.Page.{mt950_of};
ghost use Rattle.ref_tables.specs.Seen.{few_decimals};

use crate::cutting::{cut, cut_in_place, let_go, tables};
use corr_text::{Memory, Text};
use fin_fields::FieldFault;
use mt950::{
    Line61, Mark, Page950, PageFault, fields_950, join_pages, put_mt950, read_mt950,
    read_mt950_lines,
};
use ref_tables::RefTables;
use std::alloc::Global;
use std::test::Fail;

// The page of a text, written; none where the text says none.
fn page(alloc: Global, tables: &RefTables, text: &[u8]) -> Result<Option<Text>, FieldFault>
    requires { IsTrue (few_decimals tables.now.ccys) }
{
    let fields = cut(alloc, text)?;
    match read_mt950(alloc, fields.as_slice(), tables) {
        Ok(p) => {
            let text = put_mt950(alloc, &p);
            let_go(p);
            Ok(Some(text?))
        }
        Err(_) => Ok(None),
    }
}

// The line of a page's last field; none where it has another number of lines.
fn last_line(alloc: Global, p: &Page950) -> Result<Option<Text>, Memory>
    requires { IsReadable mt950_of p.now }
{
    let fields = fields_950(alloc, p)?;
    match fields.as_slice() {
        [.., last] => match last.lines.as_slice() {
            [line] => Ok(Some(line.copy(alloc)?)),
            _ => Ok(None),
        },
        [] => Ok(None),
    }
}

// The line of the last field of the page of a text; none where the text says none.
fn page_end(alloc: Global, tables: &RefTables, text: &[u8]) -> Result<Option<Text>, FieldFault>
    requires { IsTrue (few_decimals tables.now.ccys) }
{
    let fields = cut(alloc, text)?;
    match read_mt950(alloc, fields.as_slice(), tables) {
        Ok(p) => {
            let line = last_line(alloc, &p);
            let_go(p);
            Ok(line?)
        }
        Err(_) => Ok(None),
    }
}

// What the page of a text closes at, read where the lines are; none where the text says none.
fn page_closing(alloc: Global, tables: &RefTables, text: &[u8]) -> Result<Option<i64>, FieldFault> {
    let fields = cut_in_place(alloc, text)?;
    match read_mt950_lines(alloc, fields.as_slice(), tables) {
        Ok(p) => {
            let closing = p.closing.signed;
            let_go(p);
            Ok(Some(closing))
        }
        Err(_) => Ok(None),
    }
}

// What the first line adds, by a copy of it; 0 where there is none.
fn first_effect(alloc: Global, lines: &[Line61]) -> Result<i64, Memory>
    requires { All IsSmallLine lines.now }
{
    match lines {
        [line, ..] => {
            let copy = line.copy(alloc)?;
            let effect = copy.effect();
            let_go(copy);
            Ok(effect)
        }
        [] => Ok(0),
    }
}

// What a statement of the page of a text closes at, and what its first line adds; none where the text says none, or its page is
// no statement.
fn closing(alloc: Global, tables: &RefTables, text: &[u8]) -> Result<Option<(i64, i64)>, FieldFault>
    requires { IsTrue (few_decimals tables.now.ccys) }
{
    let fields = cut(alloc, text)?;
    match read_mt950(alloc, fields.as_slice(), tables) {
        Ok(p) => {
            let pages = [p];
            match join_pages(alloc, &pages) {
                Ok(statement) => {
                    let closing = statement.closing;
                    let effect = first_effect(alloc, statement.lines.as_slice());
                    let_go(statement);
                    Ok(Some((closing, effect?)))
                }
                Err(_) => Ok(None),
            }
        }
        Err(_) => Ok(None),
    }
}

// Why the pages of two texts are no statement; none where a text says no page, or they are one.
fn misjoined(
    alloc: Global,
    tables: &RefTables,
    first: &[u8],
    second: &[u8],
) -> Result<Option<PageFault>, FieldFault>
    requires { IsTrue (few_decimals tables.now.ccys) }
{
    let first = cut(alloc, first)?;
    let second = cut(alloc, second)?;
    match read_mt950(alloc, first.as_slice(), tables) {
        Ok(p) => match read_mt950(alloc, second.as_slice(), tables) {
            Ok(q) => {
                let pages = [p, q];
                Ok(join_pages(alloc, &pages).err())
            }
            Err(_) => Ok(None),
        },
        Err(_) => Ok(None),
    }
}

const TEXT: &[u8] =
    b":20:R\n:25:A\n:28C:5/1\n:60F:C240602EUR1,\n:61:240603C1,S103R//P\n:62F:C240603EUR2,\n";

#[test]
fn a_page_is_read_and_written(rt: HostRuntime) -> Result<(), Fail> {
    let tables = tables(rt.alloc())?;
    let want =
        b":20:R\r\n:25:A\r\n:28C:5/1\r\n:60F:C240602EUR1,00\r\n:61:240603C1,00S103R//P\r\n:62F:C240603EUR2,00\r\n";
    match page(rt.alloc(), &tables, TEXT)? {
        Some(got) => assert!(rt; got.bytes() == want.as_slice()),
        None => assert!(rt; false, "a page"),
    }
    Ok(())
}

#[test]
fn a_page_has_the_fields_that_it_is_written_as(rt: HostRuntime) -> Result<(), Fail> {
    let tables = tables(rt.alloc())?;
    match page_end(rt.alloc(), &tables, TEXT)? {
        Some(line) => assert!(rt; line.bytes() == b"C240603EUR2,00".as_slice()),
        None => assert!(rt; false, "a line"),
    }
    Ok(())
}

#[test]
fn a_page_is_read_in_its_text(rt: HostRuntime) -> Result<(), Fail> {
    let tables = tables(rt.alloc())?;
    assert_eq!(rt; page_closing(rt.alloc(), &tables, TEXT)?, Some(200));
    Ok(())
}

#[test]
fn a_page_is_a_statement(rt: HostRuntime) -> Result<(), Fail> {
    let tables = tables(rt.alloc())?;
    assert!(rt; closing(rt.alloc(), &tables, TEXT)? == Some((200, 100)));
    assert!(rt; join_pages(rt.alloc(), &[]).err() == Some(PageFault::Gap { page: 1 }));
    Ok(())
}

#[test]
fn a_page_opens_where_the_one_before_closed(rt: HostRuntime) -> Result<(), Fail> {
    let tables = tables(rt.alloc())?;
    let first = b":20:R\n:25:A\n:28C:5/1\n:60F:C240602EUR2,\n:62M:C240603EUR2,\n";
    let second = b":20:S\n:25:A\n:28C:5/2\n:60M:C240603EUR1,\n:62F:C240603EUR1,\n";
    let want = PageFault::NotCarried {
        page: 2,
        closing: 200,
        opening: 100,
    };
    assert!(rt; misjoined(rt.alloc(), &tables, first, second)? == Some(want));
    Ok(())
}

#[test]
fn the_letters_of_a_mark(rt: HostRuntime) -> Result<(), Fail> {
    assert!(rt; Mark::RC.letters() == b"RC".as_slice());
    Ok(())
}
