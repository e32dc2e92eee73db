//! The report, the bookings and the summary of one pay, also of one with a charge, the words of a line, and a generated day of one message.

ghost use Rattle.std.specs.Prelude.{◌≡◌, length};
ghost use Rattle.day_model.specs.Legal.{IsLegal};
ghost use Rattle.corr_report.specs.Bookings.{AreInCentury};

use crate::given::{FIRST, charged, customers, customers_and_fees, history_of, pay};
use corr_money::Minor;
use corr_report::{
    booking, bookings, generated, put_amount, put_balance, put_number, put_reply_line,
    put_report_end, put_word, reply_line, report, side_letter, summary,
};
use corr_text::{Decimal, Memory, Text};
use day_model::{Accounts, History, Reply, Side};
use std::alloc::Global;
use std::test::Fail;

const ENTERED: Reply = Reply::Entered {
    mir: FIRST,
    place: 1,
};

// The report of the only entry.
fn reported(alloc: Global, a: &Accounts, h: &History) -> Result<Text, Memory>
    requires legal { IsLegal a.now h.now.entries }
    requires one { length h.now.entries ≡ 1 }
{
    report(alloc, a, h, &[ENTERED])
}

// Its line as that of the seventh message.
fn told(alloc: Global, a: &Accounts, h: &History) -> Result<Text, Memory>
    requires legal { IsLegal a.now h.now.entries }
    requires one { length h.now.entries ≡ 1 }
{
    reply_line(alloc, a, h, 7, &ENTERED)
}

// The report of the only entry, line by line at the end of a text.
fn reported_in_place(alloc: Global, a: &Accounts, h: &History) -> Result<Text, Memory>
    requires legal { IsLegal a.now h.now.entries }
    requires one { length h.now.entries ≡ 1 }
{
    let mut text = Text::from_bytes(alloc, b"")?;
    put_reply_line(alloc, a, h, 1, &ENTERED, &mut Decimal::new(), &mut text)?;
    put_report_end(alloc, a, h, 1, &mut text)?;
    Ok(text)
}

// The bookings of a history.
fn booked(alloc: Global, a: &Accounts, h: &History) -> Result<Text, Memory>
    requires legal { IsLegal a.now h.now.entries }
    requires days { AreInCentury h.now.entries }
{
    bookings(alloc, a, h)
}

// The line of the only entry.
fn booked_line(alloc: Global, a: &Accounts, h: &History) -> Result<Text, Memory>
    requires legal { IsLegal a.now h.now.entries }
    requires days { AreInCentury h.now.entries }
    requires one { length h.now.entries ≡ 1 }
{
    booking(alloc, a, h, 1)
}

// The summary of a history.
fn summed(alloc: Global, a: &Accounts, h: &History) -> Result<Text, Memory>
    requires { IsLegal a.now h.now.entries }
{
    summary(alloc, a, h)
}

// A line of one word of each kind.
fn line(alloc: Global) -> Result<Text, Memory> {
    let mut line = Text::from_bytes(alloc, b"LINE")?;
    put_word(side_letter(Side::Debit), &mut line)?;
    put_number(alloc, 12, 6, &mut line)?;
    put_amount(alloc, Minor(123_450), 2, &mut line)?;
    put_balance(alloc, -5, 2, &mut line)?;
    Ok(line)
}

// A day of one message.
fn day(alloc: Global) -> Result<Text, Memory> {
    generated(alloc, 1, 1)
}

#[test]
fn a_booked_pay_is_reported(rt: HostRuntime) -> Result<(), Fail> {
    let a = customers(rt.alloc())?;
    let pay = pay(rt.alloc())?;
    assert!(rt; a.fits(&pay));
    let h = history_of(rt.alloc(), &a, pay)?;
    let text = reported(rt.alloc(), &a, &h)?;
    assert!(rt;
        text.bytes()
            .ends_with(b"TOTAL EUR DEBIT 0,03 CREDIT 0,03\n")
    );
    let in_place = reported_in_place(rt.alloc(), &a, &h)?;
    assert!(rt; text.bytes() == in_place.bytes());
    let text = booked(rt.alloc(), &a, &h)?;
    assert!(rt; text.bytes().ends_with(b" BOOKED D A 0,03 C B 0,03\n"));
    let only = booked_line(rt.alloc(), &a, &h)?;
    assert!(rt; text.bytes() == only.bytes());
    let text = told(rt.alloc(), &a, &h)?;
    assert!(rt; text.bytes().starts_with(b"000007 240603ALPHDEFF"));
    let text = summed(rt.alloc(), &a, &h)?;
    assert!(rt; text.bytes().ends_with(b"BALANCE A 0,02\nBALANCE B -0,02\n"));
    Ok(())
}

#[test]
fn a_charged_pay_is_reported(rt: HostRuntime) -> Result<(), Fail> {
    let a = customers_and_fees(rt.alloc())?;
    let pay = charged(rt.alloc())?;
    assert!(rt; a.fits(&pay));
    let h = history_of(rt.alloc(), &a, pay)?;
    let text = reported(rt.alloc(), &a, &h)?;
    assert!(rt;
        text.bytes().starts_with(b"000001 240603ALPHDEFFAXXX0001000001 BOOKED 00000001 EUR 0,03\n")
    );
    let text = booked(rt.alloc(), &a, &h)?;
    assert!(rt;
        text.bytes()
            .ends_with(b" BOOKED D A 0,03 C B 0,02 C F 0,01\n")
    );
    Ok(())
}

#[test]
fn words_follow_on_a_line(rt: HostRuntime) -> Result<(), Fail> {
    assert!(rt; line(rt.alloc())?.bytes() == b"LINE D 000012 1234,50 -0,05".as_slice());
    Ok(())
}

#[test]
fn a_day_of_one_message_is_made(rt: HostRuntime) -> Result<(), Fail> {
    let text = day(rt.alloc())?;
    assert!(rt;
        text.bytes()
            .starts_with(b"{1:F01HOMEUS33AXXX0001000001}{2:")
    );
    assert!(rt; text.bytes().ends_with(b"\r\nA PAYEE\r\n:71A:SHA\r\n-}$"));
    Ok(())
}
