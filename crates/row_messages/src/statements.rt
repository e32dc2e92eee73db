//! Calls of mt950.

ghost use Rattle.std.specs.Prelude.{◌≡◌, All, IfOk, IsTrue, length};
ghost use Rattle.corr_ids.specs.Day.{InCentury};
ghost use Rattle.fin_contents.specs.Writing.{IsReadable};
ghost use Rattle.mt950.specs.Joining.{IsSmallLine, IsAddable};
ghost use Rattle.mt950.specs.Page.{mt950_of};
ghost use Rattle.ref_tables.specs.Seen.{few_decimals};

use crate::given::{cut, let_go, tables_in};
use crate::kinds::{Kind, read, rewrite};
use corr_ids::{Day, put_yymmdd};
use corr_text::{List, Memory, Text};
use fin_fields::Field;
use fin_layout::MtFault;
use mt950::{Line61, Page950, PageFault, Statement, join_pages, put_mt950, read_mt950};
use ref_tables::RefTables;
use row_words::answer::Answer;
use row_words::stop::Stop;
use row_words::words::Words;
use std::alloc::Global;

/// Makes a call, and answers whether one of these has that name.
pub fn call(name: &[u8], words: &mut Words, answer: &mut Answer) -> Result<bool, Stop> {
    match name {
        b"read_mt950" => read::<Page>(words, answer)?,
        b"put_mt950" => rewrite::<Page>(words, answer)?,
        b"join_pages" => join(words, answer)?,
        _ => return Ok(false),
    }
    Ok(true)
}

enum Page {}

impl Kind for Page {
    fn check(alloc: Global, fields: &[Field], tables: &RefTables) -> Result<(), MtFault> {
        let_go(read_mt950(alloc, fields, tables)?);
        Ok(())
    }

    fn rewrite(alloc: Global, fields: &[Field], tables: &RefTables) -> Result<Text, MtFault> {
        let p = read_mt950(alloc, fields, tables)?;
        let text = put_mt950(alloc, &p);
        let_go(p);
        Ok(text?)
    }
}

/// The page that a text says.
fn page_in(alloc: Global, tables: &RefTables, text: &[u8]) -> Result<Page950, Stop>
    requires { IsTrue (few_decimals tables.now.ccys) }
    ensures { IfOk result (IsReadable mt950_of) }
{
    let fields = cut(alloc, text)?;
    match read_mt950(alloc, fields.as_slice(), tables) {
        Ok(page) => Ok(page),
        Err(MtFault::Bad(_)) => Err(Stop::Unreadable),
        Err(MtFault::Memory) => Err(Stop::Memory),
    }
}

/// The pages that texts say, each one.
fn pages_in(alloc: Global, tables: &RefTables, texts: &[Text]) -> Result<List<Page950>, Stop>
    requires { IsTrue (few_decimals tables.now.ccys) }
    ensures count { IfOk result (λ pages. length pages ≡ length texts.now) }
    ensures read { IfOk result (λ pages. All (IsReadable mt950_of) pages) }
{
    let mut pages = List::new(alloc);
    for text in texts {
        pages.push(page_in(alloc, tables, text.bytes())?)?;
    }
    Ok(pages)
}

/// The statement that the pages of some texts are, under the tables of a file.
fn joined(alloc: Global, file: &[u8], texts: &[Text]) -> Result<Result<Statement, PageFault>, Stop>
    ensures { IfOk result (λ s. IfOk s IsAddable) }
{
    if texts.len() > 50000 {
        return Err(Stop::Unreadable);
    }
    let tables = tables_in(alloc, file)?;
    let pages = pages_in(alloc, &tables, texts)?;
    Ok(join_pages(alloc, pages.as_slice()))
}

fn put_day(day: Day, answer: &mut Answer) -> Result<(), Memory>
    requires { InCentury day }
{
    let mut text = Text::from_bytes(answer.alloc(), b"")?;
    put_yymmdd(day, &mut text)?;
    answer.word(text.bytes())
}

/// Adds what each line adds to the balance.
fn put_effects(lines: &[Line61], answer: &mut Answer) -> Result<(), Memory>
    requires { All IsSmallLine lines.now }
{
    for line in lines {
        answer.signed(line.effect())?;
    }
    Ok(())
}

/// Adds a statement: its account, currency and decimals, opening and closing, the day of the closing, and what each line adds.
fn put_statement(s: &Statement, answer: &mut Answer) -> Result<(), Memory>
    requires { IsAddable s.now }
{
    answer.text(s.account.bytes())?;
    answer.word(&s.ccy.0)?;
    answer.number(s.decimals as u64)?;
    answer.signed(s.opening)?;
    answer.signed(s.closing)?;
    put_day(s.day, answer)?;
    put_effects(s.lines.as_slice(), answer)
}

/// Adds why pages are no statement.
fn put_page_fault(fault: PageFault, answer: &mut Answer) -> Result<(), Stop> {
    match fault {
        PageFault::Gap { page } => {
            answer.word(b"Gap")?;
            answer.number(page as u64)?;
        }
        PageFault::NotCarried {
            page,
            closing,
            opening,
        } => {
            answer.word(b"NotCarried")?;
            answer.number(page as u64)?;
            answer.signed(closing)?;
            answer.signed(opening)?;
        }
        PageFault::DoesNotAdd {
            opening,
            sum,
            closing,
        } => {
            answer.word(b"DoesNotAdd")?;
            answer.signed(opening)?;
            answer.signed(sum)?;
            answer.signed(closing)?;
        }
        PageFault::Memory => return Err(Stop::Memory),
    }
    Ok(())
}

/// `join_pages TABLES PAGE..`: the statement that the pages are, or the fault.
fn join(words: &mut Words, answer: &mut Answer) -> Result<(), Stop> {
    let file = words.next()?;
    let texts = words.rest();
    match joined(answer.alloc(), file, texts)? {
        Ok(statement) => Ok(put_statement(&statement, answer)?),
        Err(fault) => put_page_fault(fault, answer),
    }
}
