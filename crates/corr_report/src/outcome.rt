//! The outcome of an entry, in the words of a line.

ghost use Rattle.std.specs.Prelude.{◌≡◌, ◌<◌, ◌≤◌, ◌-◌, ◌++◌, OnOk, length, slice_get};
ghost use Rattle.std.specs.List.{flat_map};
ghost use Rattle.corr_money.specs.Amounts.{amount_end, most_decimals};
ghost use Rattle.day_model.specs.Chart.{IsListed, account_at};
ghost use Rattle.day_model.specs.Fit.{FitsAccounts};
ghost use Rattle.corr_report.specs.Bookings.{leg_words, outcome_words};
ghost use Rattle.corr_report.specs.Lines.{said, spaced};
ghost use Rattle.corr_report.specs.inner.Outcomes.{NamesLeg};
ghost use Rattle.corr_report.specs.Report.{amount_words, balance_words, debited_words, entry_words};

use crate::words::{put_amount, put_balance, put_number, put_word, side_letter};
use corr_money::Minor;
use corr_text::{Memory, Text};
use day_model::{Account, Accounts, Entry, Leg, Outcome, Pay, Side, legs_sum};
use std::alloc::Global;

fn account_of<'a>(a: &'a Accounts, leg: &Leg) -> &'a Account
    requires { IsListed a.now leg.now.account.0 }
    ensures value { account_at a.now leg.now.account.0 ≡ Some result.now }
    ensures decimals { result.now.decimals ≤ most_decimals }
{
    a.get(leg.account)
}

fn leg_at(legs: &[Leg], k: u8) -> &Leg
    requires from_one { 1 ≤ k }
    requires there { k ≤ length legs.now }
    ensures { slice_get legs.now (k - 1) ≡ Some result.now }
{
    &legs[k as usize - 1]
}

// Adds the account of leg `k`, from 1, and its balance.
fn put_leg_balance(
    alloc: Global,
    a: &Accounts,
    pay: &Pay,
    k: u8,
    balance: i64,
    out: &mut Text,
) -> Result<(), Memory>
    requires fits { FitsAccounts a.now pay.now }
    requires from_one { 1 ≤ k }
    requires there { k ≤ length pay.now.legs }
    ensures { OnOk result (out.new ≡ out.old ++ spaced (said (slice_get pay.now.legs (k - 1)) (balance_words a.now balance))) }
{
    let account = account_of(a, leg_at(pay.legs.as_slice(), k));
    put_word(account.id.bytes(), out)?;
    put_balance(alloc, balance, account.decimals, out)
}

// Adds an amount in the currency of a leg's account.
fn put_in_currency(
    alloc: Global,
    a: &Accounts,
    leg: &Leg,
    amount: Minor,
    out: &mut Text,
) -> Result<(), Memory>
    requires listed { IsListed a.now leg.now.account.0 }
    requires bound { amount.0 < amount_end }
    ensures { OnOk result (out.new ≡ out.old ++ spaced (amount_words a.now amount.0 leg.now)) }
{
    let account = account_of(a, leg);
    put_word(&account.ccy.0, out)?;
    put_amount(alloc, amount, account.decimals, out)
}

// Adds the sum of the debit legs in the currency of the first.
fn put_debited(alloc: Global, a: &Accounts, pay: &Pay, out: &mut Text) -> Result<(), Memory>
    requires { FitsAccounts a.now pay.now }
    ensures { OnOk result (out.new ≡ out.old ++ spaced (debited_words a.now pay.now.legs)) }
{
    let legs = pay.legs.as_slice();
    let debited = Minor(legs_sum(Side::Debit, legs));
    put_in_currency(alloc, a, leg_at(legs, 1), debited, out)
}

/// Adds what became of the entry at a place: `BOOKED` with the sum of the debit legs, or `UNFUNDED` with the account
/// of the failing leg and its balance.
pub(crate) fn put_entry(
    alloc: Global,
    a: &Accounts,
    place: u32,
    entry: &Entry,
    out: &mut Text,
) -> Result<(), Memory>
    requires fits { FitsAccounts a.now entry.now.pay }
    requires leg { NamesLeg (length entry.now.pay.legs) entry.now.outcome }
    ensures { OnOk result (out.new ≡ out.old ++ spaced (entry_words a.now place entry.now.pay.legs entry.now.outcome)) }
{
    match entry.outcome {
        Outcome::Booked => {
            put_word(b"BOOKED", out)?;
            put_number(alloc, place as u64, 8, out)?;
            put_debited(alloc, a, &entry.pay, out)
        }
        Outcome::Unfunded { leg, balance } => {
            put_word(b"UNFUNDED", out)?;
            put_number(alloc, place as u64, 8, out)?;
            put_leg_balance(alloc, a, &entry.pay, leg, balance, out)
        }
    }
}

fn put_leg(alloc: Global, a: &Accounts, leg: &Leg, out: &mut Text) -> Result<(), Memory>
    requires listed { IsListed a.now leg.now.account.0 }
    requires bound { leg.now.amount.0 < amount_end }
    ensures { OnOk result (out.new ≡ out.old ++ spaced (leg_words a.now leg.now)) }
{
    let account = account_of(a, leg);
    put_word(side_letter(leg.side), out)?;
    put_word(account.id.bytes(), out)?;
    put_amount(alloc, leg.amount, account.decimals, out)
}

fn put_legs(alloc: Global, a: &Accounts, entry: &Entry, out: &mut Text) -> Result<(), Memory>
    requires { FitsAccounts a.now entry.now.pay }
    ensures { OnOk result (out.new ≡ out.old ++ spaced (flat_map (leg_words a.now) entry.now.pay.legs)) }
{
    for leg in entry.pay.legs.as_slice() {
        put_leg(alloc, a, leg, out)?;
    }
    Ok(())
}

/// Adds the outcome of an entry: `BOOKED` with its legs, or `UNFUNDED` with the account of the failing leg and its balance.
pub(crate) fn put_outcome(
    alloc: Global,
    a: &Accounts,
    entry: &Entry,
    out: &mut Text,
) -> Result<(), Memory>
    requires fits { FitsAccounts a.now entry.now.pay }
    requires leg { NamesLeg (length entry.now.pay.legs) entry.now.outcome }
    ensures { OnOk result (out.new ≡ out.old ++ spaced (outcome_words a.now entry.now.pay.legs entry.now.outcome)) }
{
    match entry.outcome {
        Outcome::Booked => {
            put_word(b"BOOKED", out)?;
            put_legs(alloc, a, entry, out)
        }
        Outcome::Unfunded { leg, balance } => {
            put_word(b"UNFUNDED", out)?;
            put_leg_balance(alloc, a, &entry.pay, leg, balance, out)
        }
    }
}
