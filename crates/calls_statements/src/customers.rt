//! Statements of customers: pages read and written, and those of a small history.

ghost use Rattle.std.specs.Prelude.{◌≤◌, All, IfOk, IsTrue, length};
ghost use Rattle.corr_ids.specs.Bic.{IsBic};
ghost use Rattle.day_model.specs.Chart.{IsListed};
ghost use Rattle.fin_contents.specs.Writing.{IsReadable};
ghost use Rattle.fin_fields.specs.Writing.{IsField};
ghost use Rattle.mt940_out.specs.Page.{mt940_of};
ghost use Rattle.ref_tables.specs.Seen.{few_decimals};
ghost use Rattle.calls_statements.specs.inner.Grown.{IsGrown};

use crate::given::{DAY, accounts, charged_onward, enter, is_only};
use crate::received::{cut, tables};
use corr_text::{Fault, List, Memory, Text};
use day_model::{Accounts, AcctNo, History};
use fin_layout::{MtFault, P22, P24};
use mt940_out::{Page940, customer_pages, customer_pages_with, put_mt940, read_mt940};
use statement::HistoryIndex;
use std::alloc::Global;
use std::test::Fail;

// Two lines, the first with a note of two lines.
const NOTED: &[u8] = b":20:S2406030003P0001\r
:25:CUST1\r
:28C:155/1\r
:60F:C240602EUR0,00\r
:61:2406030603C1234,50S103REF1//P00000001\r
:86:A PAYER\r
RENT FOR JUNE\r
:61:2406030603D5,00S103REF2//P00000002\r
:62F:C240603EUR1229,50\r
";

// A note of seven lines; the amount of the line behind it has no comma, and the currency of 62a is another.
const LONG: &[u8] = b":20:S2406030003P0001
:25:CUST1
:28C:155/1
:60F:C240602EUR0,00
:61:2406030603C1,00S103REF1//P00000001
:86:A PAYER
:61:2406030603C1,00S103REF1//P00000001
:86:1
2
3
4
5
6
7
:61:2406030603C1S103REF1//P00000001
:62F:C240603JPY1
";

// The same, and a fault of the first line.
const EARLIER: &[u8] = b":20:S2406030003P0001
:25:CUST1
:28C:155/1
:60F:C240602EUR0,00
:61:2406030603C1S103REF1//P00000001
:86:1
2
3
4
5
6
7
:62F:C240603EUR0,00
";

// A second note behind the first.
const TWICE: &[u8] = b":20:S2406030003P0001
:25:CUST1
:28C:155/1
:60F:C240602EUR0,00
:61:2406030603C1,00S103REF1//P00000001
:86:A PAYER
:86:A PAYEE
:62F:C240603EUR0,00
";

// The statement of account 2, to which a transfer was sent on.
const STATED: &[u8] = b"{1:F01HOMEUS33AXXX0000000000}{2:I940HOMEUS33XXXXN}{4:\r
:20:S2406030002P0001\r
:25:VBETAEUR\r
:28C:155/1\r
:60F:C240602EUR10000,00\r
:61:2406030603C1229,50S103P00000001K1//P00000001\r
:86:A PAYER\r
:62F:C240603EUR11229,50\r
-}";

/// The page that a text says, or its fault.
fn read(alloc: Global, text: &[u8]) -> Result<Result<Page940, MtFault>, Fail>
    ensures { IfOk result (λ read. IfOk read (IsReadable mt940_of)) }
{
    let tables = tables(alloc)?;
    let fields = cut(alloc, text)?;
    Ok(read_mt940(alloc, fields.as_slice(), &tables))
}

/// Whether a text is refused with this code of this field.
fn is_refused(alloc: Global, text: &[u8], fault: Fault) -> Result<bool, Fail> {
    match read(alloc, text)? {
        Err(MtFault::Bad(told)) => Ok(told == fault),
        _ => Ok(false),
    }
}

#[test]
fn a_page_with_notes_is_read_and_written(rt: HostRuntime) -> Result<(), Fail> {
    let Ok(page) = read(rt.alloc(), NOTED)? else {
        return Err("no page".into());
    };
    let notes = page.notes.as_slice();
    assert!(rt; page.page.lines.as_slice().len() == 2 && notes.len() == 2);
    assert!(rt; notes[0].as_slice().len() == 2 && notes[1].as_slice().is_empty());
    assert!(rt; notes[0].as_slice()[1].bytes() == b"RENT FOR JUNE".as_slice());
    let text = put_mt940(rt.alloc(), &page)?;
    assert!(rt; text.bytes() == NOTED);
    Ok(())
}

#[test]
fn the_first_fault_is_told(rt: HostRuntime) -> Result<(), Fail> {
    let long = Fault {
        code: P24,
        tag: *b"86 ",
        nth: 2,
    };
    assert!(rt; is_refused(rt.alloc(), LONG, long)?);
    let earlier = Fault {
        code: corr_text::Code(*b"T40"),
        tag: *b"61 ",
        nth: 1,
    };
    assert!(rt; is_refused(rt.alloc(), EARLIER, earlier)?);
    let twice = Fault {
        code: P22,
        tag: *b"86 ",
        nth: 2,
    };
    assert!(rt; is_refused(rt.alloc(), TWICE, twice)?);
    Ok(())
}

// The messages of an account, from its history and from its index.
fn printed(
    alloc: Global,
    a: &Accounts,
    h: &History,
    index: &HistoryIndex,
    n: u32,
) -> Result<(List<Text>, List<Text>), Memory>
    requires home { IsBic a.now.home }
    requires grown { IsGrown a.now h.now.entries index.now }
    requires listed { IsListed a.now n }
{
    let pages = customer_pages(alloc, a, h, AcctNo(n), DAY)?;
    let with = customer_pages_with(alloc, index, a, h, AcctNo(n), DAY)?;
    Ok((pages, with))
}

#[test]
#[tactic(auto, using(day_model::proofs::laws::Growth::legal_here))]
fn a_line_has_a_note_of_its_payment(rt: HostRuntime) -> Result<(), Fail> {
    let a = accounts(rt.alloc())?;
    let mut h = History::new(rt.alloc());
    let mut index = HistoryIndex::new(rt.alloc(), &a, &h)?;
    enter(&a, &mut h, &mut index, charged_onward(rt.alloc())?)?;
    if a.count() < 2 {
        return Err("no account".into());
    }
    let (texts, with) = printed(rt.alloc(), &a, &h, &index, 2)?;
    assert!(rt; is_only(&texts, STATED) && is_only(&with, STATED));
    Ok(())
}
