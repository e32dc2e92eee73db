//! The entries of some days.

ghost use Rattle.std.specs.Prelude.{◌≡◌, ◌≤◌, ◌<◌, ◌++◌, ◌-◌, [], ◌∷◌, IfOk, OnOk, Some, length, slice_get};
ghost use Rattle.corr_ids.specs.Day.{InCentury, yymmdd_of};
ghost use Rattle.corr_money.specs.Amounts.{most_decimals};
ghost use Rattle.corr_report.specs.Bookings.{AreInCentury};
ghost use Rattle.corr_report.specs.inner.Outcomes.{NamesLeg};
ghost use Rattle.day_model.specs.Chart.{IsListed, account_at};
ghost use Rattle.day_model.specs.Fit.{FitsAccounts};
ghost use Rattle.day_model.specs.Legal.{IsLegal};
ghost use Rattle.desk_rows.specs.Csv.{next_cells, pointed, quoted, signed_pointed};
ghost use Rattle.desk_rows.specs.Entries.{AreValued, credit_cells, credit_place, debit_cells, entry_row, entry_rows, fee_cells, fee_place, is_between, is_second_credit, leg_cells, money_cells, name_cells, outcome_cells, row_between, sign_of, stamp_cells, theirs_of, type_text, uetr_text};

use crate::cells::{put_pointed, put_quoted, put_signed, put_total};
use corr_ids::{Day, Uetr, put_yymmdd};
use corr_text::{Memory, Text, put_digits};
use day_model::{Account, Accounts, Entry, History, Leg, Mt, Outcome, Pay, Quote, Side, legs_sum};
use std::alloc::Global;

/// The names of the columns.
const HEADER: &[u8] =
    b"place,day,value_date,mir,type,reference,uetr,currency,amount,debit,credit,fee,outcome,balance\r\n";

/// Whether an entry is of one of the days.
fn is_between(entry: &Entry, from: Day, until: Day) -> bool
    ensures { result ≡ is_between from until entry.now }
{
    from.0 <= entry.day.0 && entry.day.0 <= until.0
}

/// The type of a message.
fn type_text(mt: Mt) -> &'static [u8]
    ensures { result.now ≡ type_text mt }
{
    match mt {
        Mt::Transfer => b"103",
        Mt::Cover => b"202COV",
    }
}

/// The reference that another bank gave.
fn theirs(quote: &Quote) -> &[u8]
    ensures { result.now ≡ theirs_of quote.now }
{
    match quote {
        Quote::Theirs(text) => text.bytes(),
        Quote::Ours(_) => b"",
    }
}

/// A payment's UETR.
fn uetr_text(uetr: &Option<Uetr>) -> &[u8]
    ensures { result.now ≡ uetr_text uetr.now }
{
    match uetr {
        Some(uetr) => &uetr.0,
        None => b"",
    }
}

/// The account of a leg.
fn account_of<'a>(a: &'a Accounts, leg: &Leg) -> &'a Account
    requires { IsListed a.now leg.now.account.0 }
    ensures value { account_at a.now leg.now.account.0 ≡ Some result.now }
    ensures decimals { result.now.decimals ≤ most_decimals }
{
    a.get(leg.account)
}

/// Leg `k`, from 0.
fn leg_at(legs: &[Leg], k: usize) -> &Leg
    requires { k < length legs.now }
    ensures { slice_get legs.now k ≡ Some result.now }
{
    &legs[k]
}

/// Leg `k`, from 0, and its account.
fn leg_and_account<'a>(a: &'a Accounts, pay: &'a Pay, k: usize) -> (&'a Leg, &'a Account)
    requires fits { FitsAccounts a.now pay.now }
    requires there { k < length pay.now.legs }
    ensures leg { slice_get pay.now.legs k ≡ Some result.0.now }
    ensures account { account_at a.now result.0.now.account.0 ≡ Some result.1.now }
    ensures decimals { result.1.now.decimals ≤ most_decimals }
{
    let leg = leg_at(pay.legs.as_slice(), k);
    let account = account_of(a, leg);
    (leg, account)
}

/// Adds a comma and a day.
fn put_day(day: Day, out: &mut Text) -> Result<(), Memory>
    requires { InCentury day }
    ensures { OnOk result (out.new ≡ out.old ++ 44 ∷ quoted (yymmdd_of day)) }
{
    out.push(b",")?;
    put_yymmdd(day, out)
}

/// Adds a comma and an amount.
fn put_amount(n: u64, decimals: u8, out: &mut Text) -> Result<(), Memory>
    requires { decimals ≤ most_decimals }
    ensures { OnOk result (out.new ≡ out.old ++ 44 ∷ quoted (pointed decimals n)) }
{
    put_total(n, decimals, out)
}

/// Adds a comma and a balance.
fn put_standing(balance: i64, decimals: u8, out: &mut Text) -> Result<(), Memory>
    requires { decimals ≤ most_decimals }
    ensures { OnOk result (out.new ≡ out.old ++ 44 ∷ quoted (signed_pointed decimals balance)) }
{
    put_signed(balance, decimals, out)
}

/// Adds the day, the value date, the MIR and the type of an entry.
fn put_stamp(entry: &Entry, out: &mut Text) -> Result<(), Memory>
    requires day { InCentury entry.now.day }
    requires value { InCentury entry.now.pay.value }
    ensures { OnOk result (out.new ≡ out.old ++ next_cells (stamp_cells entry.now)) }
{
    put_day(entry.day, out)?;
    put_day(entry.pay.value, out)?;
    put_quoted(&entry.pay.mir.0, out)?;
    put_quoted(type_text(entry.pay.mt), out)
}

/// Adds the sender's reference and the UETR of a pay.
fn put_names(pay: &Pay, out: &mut Text) -> Result<(), Memory>
    requires { 0 < length pay.now.legs }
    ensures { OnOk result (out.new ≡ out.old ++ next_cells (name_cells pay.now)) }
{
    let first = leg_at(pay.legs.as_slice(), 0);
    put_quoted(theirs(&first.quote), out)?;
    put_quoted(uetr_text(&pay.uetr), out)
}

/// Adds the currency, what is debited, and the account of the first leg.
fn put_debit(a: &Accounts, pay: &Pay, out: &mut Text) -> Result<(), Memory>
    requires fits { FitsAccounts a.now pay.now }
    requires there { 0 < length pay.now.legs }
    ensures { OnOk result (out.new ≡ out.old ++ next_cells (leg_cells a.now pay.now.legs 0 (debit_cells pay.now.legs))) }
{
    let legs = pay.legs.as_slice();
    let debited = legs_sum(Side::Debit, legs);
    let (_, account) = leg_and_account(a, pay, 0);
    put_quoted(&account.ccy.0, out)?;
    put_amount(debited, account.decimals, out)?;
    put_quoted(account.id.bytes(), out)
}

/// Whether the second leg is a credit: so in each pay but the return of one with a charge.
fn is_second_credit(legs: &[Leg]) -> bool
    ensures { result ≡ is_second_credit legs.now }
{
    match legs {
        [_, second, ..] => second.side == Side::Credit,
        _ => false,
    }
}

/// Where the leg stands that credits, from 0.
fn credit_place(legs: &[Leg]) -> usize
    ensures { result ≡ credit_place legs.now }
{
    if is_second_credit(legs) { 1 } else { 2 }
}

/// Where the leg of the charge stands, from 0.
fn fee_place(legs: &[Leg]) -> usize
    ensures { result ≡ fee_place legs.now }
{
    if is_second_credit(legs) { 2 } else { 1 }
}

/// Adds the account that is credited.
#[tactic(auto, using(crate::proofs::Legs::none_past))]
fn put_credit(a: &Accounts, pay: &Pay, out: &mut Text) -> Result<(), Memory>
    requires { FitsAccounts a.now pay.now }
    ensures { OnOk result (out.new ≡ out.old ++ next_cells (credit_cells a.now pay.now.legs)) }
{
    let legs = pay.legs.as_slice();
    let place = credit_place(legs);
    if place >= legs.len() {
        return put_quoted(b"", out);
    }
    let (_, account) = leg_and_account(a, pay, place);
    put_quoted(account.id.bytes(), out)
}

/// The sign of a charge: a minus where it is given back.
fn sign_of(side: Side) -> &'static [u8]
    ensures { result.now ≡ sign_of side }
{
    match side {
        Side::Debit => b"-",
        Side::Credit => b"",
    }
}

/// Adds a comma and the amount of a charge.
fn put_charge(side: Side, n: u64, decimals: u8, out: &mut Text) -> Result<(), Memory>
    requires { decimals ≤ most_decimals }
    ensures { OnOk result (out.new ≡ out.old ++ 44 ∷ quoted (sign_of side ++ pointed decimals n)) }
{
    put_pointed(sign_of(side), n, decimals, out)
}

/// Adds the charge, or an empty cell where there is none.
#[tactic(auto, using(crate::proofs::Legs::none_past))]
fn put_fee(a: &Accounts, pay: &Pay, out: &mut Text) -> Result<(), Memory>
    requires { FitsAccounts a.now pay.now }
    ensures { OnOk result (out.new ≡ out.old ++ next_cells (fee_cells a.now pay.now.legs)) }
{
    let legs = pay.legs.as_slice();
    let place = fee_place(legs);
    if place >= legs.len() {
        return put_quoted(b"", out);
    }
    let (leg, account) = leg_and_account(a, pay, place);
    put_charge(leg.side, leg.amount.0, account.decimals, out)
}

/// Adds the currency, the amount, both accounts and the charge of a pay.
fn put_money(a: &Accounts, pay: &Pay, out: &mut Text) -> Result<(), Memory>
    requires fits { FitsAccounts a.now pay.now }
    requires there { 0 < length pay.now.legs }
    ensures { OnOk result (out.new ≡ out.old ++ next_cells (money_cells a.now pay.now.legs)) }
{
    put_debit(a, pay, out)?;
    put_credit(a, pay, out)?;
    put_fee(a, pay, out)
}

/// Adds the balance of the account of leg `k`, from 1.
fn put_balance(a: &Accounts, pay: &Pay, k: u8, balance: i64, out: &mut Text) -> Result<(), Memory>
    requires fits { FitsAccounts a.now pay.now }
    requires from_one { 1 ≤ k }
    requires there { k ≤ length pay.now.legs }
    ensures { OnOk result (out.new ≡ out.old ++ next_cells (leg_cells a.now pay.now.legs (k - 1) (λ account leg. signed_pointed account.decimals balance ∷ []))) }
{
    let (_, account) = leg_and_account(a, pay, k as usize - 1);
    put_standing(balance, account.decimals, out)
}

/// Adds what became of an entry: `BOOKED`, or `UNFUNDED` with the balance then of the account that couldn't take its leg.
fn put_outcome(a: &Accounts, entry: &Entry, out: &mut Text) -> Result<(), Memory>
    requires fits { FitsAccounts a.now entry.now.pay }
    requires leg { NamesLeg (length entry.now.pay.legs) entry.now.outcome }
    ensures { OnOk result (out.new ≡ out.old ++ next_cells (outcome_cells a.now entry.now.pay.legs entry.now.outcome)) }
{
    match entry.outcome {
        Outcome::Booked => {
            put_quoted(b"BOOKED", out)?;
            put_quoted(b"", out)
        }
        Outcome::Unfunded { leg, balance } => {
            put_quoted(b"UNFUNDED", out)?;
            put_balance(a, &entry.pay, leg, balance, out)
        }
    }
}

/// Adds the row of the entry at a place.
fn put_row(
    alloc: Global,
    a: &Accounts,
    place: u32,
    entry: &Entry,
    out: &mut Text,
) -> Result<(), Memory>
    requires fits { FitsAccounts a.now entry.now.pay }
    requires some { 0 < length entry.now.pay.legs }
    requires leg { NamesLeg (length entry.now.pay.legs) entry.now.outcome }
    requires day { InCentury entry.now.day }
    requires value { InCentury entry.now.pay.value }
    ensures { OnOk result (out.new ≡ out.old ++ entry_row a.now place entry.now) }
{
    put_digits(alloc, place as u64, 8, out)?;
    put_stamp(entry, out)?;
    put_names(&entry.pay, out)?;
    put_money(a, &entry.pay, out)?;
    put_outcome(a, entry, out)?;
    out.push(b"\r\n")
}

/// Adds the row of the entry at a place, where it is of one of the days.
fn put_if_between(
    alloc: Global,
    a: &Accounts,
    place: u32,
    entry: &Entry,
    days: (Day, Day),
    out: &mut Text,
) -> Result<(), Memory>
    requires fits { FitsAccounts a.now entry.now.pay }
    requires some { 0 < length entry.now.pay.legs }
    requires leg { NamesLeg (length entry.now.pay.legs) entry.now.outcome }
    requires day { InCentury entry.now.day }
    requires value { InCentury entry.now.pay.value }
    ensures { OnOk result (out.new ≡ out.old ++ row_between a.now days.0 days.1 place entry.now) }
{
    if is_between(entry, days.0, days.1) {
        put_row(alloc, a, place, entry, out)
    } else {
        Ok(())
    }
}

/// The entries of the days from `from` to `until`: a header, and a row for each in the order of their places, with its day, value
/// date, message and references, its amount, accounts and charge, and its outcome (docs/operating.md, "Entries"). There is none where
/// `until` is before `from`.
///
/// The history is legal for the accounts, and each entry has a day and a value date from 1980 to 2079. `Memory`: there was no room for
/// the text.
pub fn entries(
    alloc: Global,
    a: &Accounts,
    h: &History,
    from: Day,
    until: Day,
) -> Result<Text, Memory>
    requires legal { IsLegal a.now h.now.entries }
    requires days { AreInCentury h.now.entries }
    requires values { AreValued h.now.entries }
    ensures { IfOk result (λ text. text ≡ entry_rows a.now from until h.now.entries) }
{
    let mut out = Text::from_bytes(alloc, HEADER)?;
    for place in 1..h.len() + 1 {
        put_if_between(alloc, a, place, h.get(place), (from, until), &mut out)?;
    }
    Ok(out)
}
