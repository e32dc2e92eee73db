//! The page of a day over a book of two accounts, parties as texts, where a payment stands, and the laws of pages.

ghost use Rattle.corr_report.specs.Bookings.{AreInCentury};
ghost use Rattle.day_model.specs.Legal.{IsLegal};
ghost use Rattle.desk_rows.specs.Entries.{AreValued};

use crate::given::{TODAY, customers, history_of, pay};
use corr_text::{Code, Fault, Memory, Text};
use day_model::{Accounts, History, Pay};
use desk_page::{
    Row, Standing, each_account_once, each_stands_once, page, party_text, standing_for,
    texts_are_escaped,
};
use fin_parties::Party;
use std::alloc::Global;
use std::test::Fail;

const BEGIN: &[u8] =
    b"<!DOCTYPE html>\n<html lang=en>\n<head>\n<meta charset=utf-8>\n<meta name=viewport content='width=device-width'>\n<title>HOMEUS33 on 240603</title>\n";

const END: &[u8] =
    b"<tr><td class=n>1</td><td></td><td colspan=5></td><td>P02 B1 0, block 1 has another version than 01, as an acknowledgement</td></tr>\n</table>\n</body>\n</html>\n";

// The page over a history, of one message whose block 1 has another version. Promises nothing.
fn shown(alloc: Global, a: &Accounts, h: &History) -> Result<Text, Memory>
    requires legal { IsLegal a.now h.now.entries }
    requires days { AreInCentury h.now.entries }
    requires values { AreValued h.now.entries }
{
    let row = Row::Refused {
        mir: None,
        fault: Fault {
            code: Code(*b"P02"),
            tag: *b"B1 ",
            nth: 0,
        },
    };
    page(alloc, a, h, TODAY, &[row])
}

// Where a payment stands by its reference. Promises nothing.
fn found(a: &Accounts, h: &History, pay: &Pay) -> Standing
    requires { IsLegal a.now h.now.entries }
{
    standing_for(a, h, pay, h.find(&pay.mir))
}

// The laws are theorems, and their calls do nothing. Promises nothing, so that the test carries none of them.
fn laws() {
    texts_are_escaped();
    each_stands_once();
    each_account_once();
}

#[test]
fn a_page_is_shown(rt: HostRuntime) -> Result<(), Fail> {
    laws();
    let a = customers(rt.alloc())?;
    let p = pay(rt.alloc())?;
    let copy = p.copy(rt.alloc())?;
    assert!(rt; a.fits(&p));
    let h = history_of(rt.alloc(), &a, p)?;
    assert_eq!(rt; found(&a, &h, &copy), Standing::Booked { place: 1 });
    let text = shown(rt.alloc(), &a, &h)?;
    assert!(rt; text.bytes().starts_with(BEGIN) && text.bytes().ends_with(END));
    Ok(())
}

#[test]
fn a_party_is_told(rt: HostRuntime) -> Result<(), Fail> {
    let party = Party::C {
        line: Text::from_bytes(rt.alloc(), b"/400112233EUR")?,
    };
    assert!(rt; party_text(rt.alloc(), &party)?.bytes() == b"/400112233EUR".as_slice());
    Ok(())
}
