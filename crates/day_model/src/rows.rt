//! The test of accounts.

ghost use Rattle.std.specs.Prelude.{◌≡◌, ◌==◌, IsTrue};
ghost use Rattle.std.specs.List.{list_all};
ghost use Rattle.std.specs.Char.{is_ascii_uppercase};
ghost use Rattle.corr_text.specs.Sets.{is_c_byte};
ghost use Rattle.day_model.specs.RowTests.{agrees, are_ends, has_limits, is_same_bank, meets};
ghost use Rattle.day_model.specs.inner.RowTests.{all_apart, apart, is_formed, is_row};
ghost use Rattle.day_model.specs.inner.RowTests.{reads_itself, rows_fit};
ghost use Rattle.day_model.specs.Chart.{AreRows, IsFormed};
ghost use Rattle.corr_ids.specs.Kinds.{customer, is_kind};

use crate::account::Account;
use crate::accounts::MOST_ACCOUNTS;
use crate::kind::Kind;
use corr_ids::{Bic, read_bic, with_branch};
use corr_text::{Set, is_all_of};

/// The most bytes of an account's id.
const MOST_ID: usize = 34;

/// Balances are at most this in size, in minor units.
const MOST_BALANCE: i64 = 99_999_999_999_999;

fn is_bank(b: &Bic) -> bool
    ensures { result ≡ reads_itself b.now }
{
    match read_bic(&with_branch(b)) {
        Some(read) => read.head == b.head && read.branch == b.branch,
        None => false,
    }
}

fn is_customer(kind: u8) -> bool
    ensures { result ≡ (kind == customer) }
{
    kind == Kind::Customer.letter()
}

fn is_letter(kind: u8) -> bool
    ensures { result ≡ is_kind kind }
{
    is_customer(kind)
        || kind == Kind::Vostro.letter()
        || kind == Kind::Nostro.letter()
        || kind == Kind::Fee.letter()
}

fn is_plain(id: &[u8]) -> bool
    ensures { result ≡ list_all is_c_byte id.now }
{
    is_all_of(Set::C, id)
}

fn is_code(ccy: &[u8]) -> bool
    ensures { result ≡ list_all is_ascii_uppercase ccy.now }
{
    is_all_of(Set::A, ccy)
}

fn has_columns(a: &Account) -> bool
    ensures { result ≡ is_formed a.now }
{
    let id = a.id.bytes();
    1 <= id.len()
        && id.len() <= MOST_ID
        && is_plain(id)
        && is_letter(a.kind)
        && is_bank(&a.owner)
        && is_code(&a.ccy.0)
        && a.decimals <= 4
}

/// Whether an account's columns have their forms: those that `rows_hold` asks of an account alone, but for its limits.
pub fn has_form(a: &Account) -> bool
    ensures sound { IsTrue result → IsFormed a.now }
    ensures complete { IsFormed a.now → IsTrue result }
{
    has_columns(a)
}

/// Whether floor and ceiling are below 10^14 in size, and the balance lies between them.
pub(crate) fn are_ends(floor: i64, ceil: i64, balance: i64) -> bool
    ensures { result ≡ are_ends floor ceil balance }
{
    -MOST_BALANCE <= floor && ceil <= MOST_BALANCE && floor <= balance && balance <= ceil
}

/// Whether the opening lies between the account's ends.
pub(crate) fn has_limits(a: &Account) -> bool
    ensures { result ≡ has_limits a.now }
{
    are_ends(a.floor, a.ceil, a.opening)
}

fn is_book_row(a: &Account) -> bool
    ensures { result ≡ is_row a.now }
{
    has_columns(a) && has_limits(a)
}

fn is_same_bank(a: &Account, b: &Account) -> bool
    ensures { result ≡ is_same_bank a.now b.now }
{
    !is_customer(a.kind) && a.kind == b.kind && a.owner.head == b.owner.head && a.ccy == b.ccy
}

/// Whether two accounts have one id, or are of one bank: of one kind but a customer's, owner's head and currency.
pub(crate) fn meet(a: &Account, b: &Account) -> bool
    ensures { result ≡ meets a.now b.now }
{
    a.id.bytes() == b.id.bytes() || is_same_bank(a, b)
}

/// Whether two accounts of one currency have one number of decimals.
pub(crate) fn agree(a: &Account, b: &Account) -> bool
    ensures { result ≡ agrees a.now b.now }
{
    a.ccy != b.ccy || a.decimals == b.decimals
}

fn are_apart(a: &Account, b: &Account) -> bool
    ensures { result ≡ apart a.now b.now }
{
    !meet(a, b) && agree(a, b)
}

fn is_apart_from(a: &Account, others: &[Account]) -> bool
    ensures { result ≡ list_all (apart a.now) others.now }
{
    others.iter().all(|b| are_apart(a, b))
}

fn are_all_apart(rows: &[Account]) -> bool
    ensures { result ≡ all_apart rows.now }
{
    match rows {
        [] => true,
        [first, others @ ..] => is_apart_from(first, others) && are_all_apart(others),
    }
}

fn are_rows(rows: &[Account]) -> bool
    ensures { result ≡ list_all is_row rows.now }
{
    rows.iter().all(|a| is_book_row(a))
}

fn are_fit(rows: &[Account]) -> bool
    ensures { result ≡ rows_fit rows.now }
{
    rows.len() <= MOST_ACCOUNTS && are_rows(rows) && are_all_apart(rows)
}

/// Whether these rows may be the accounts of a book, but for the sums of their openings.
///
/// There are at most 1,000. Each has an id of 1 to 34 capital letters and digits, one of the four kinds, an owner's BIC, a
/// currency of three capital letters, at most 4 decimals, and floor ≤ opening ≤ ceiling, each below 10^14 in size. No two have
/// one id, no two accounts of a kind but a customer's one owner's head and currency, and one currency has one number of decimals.
pub fn rows_hold(rows: &[Account]) -> bool
    ensures sound { IsTrue result → AreRows rows.now }
    ensures complete { AreRows rows.now → IsTrue result }
{
    are_fit(rows)
}
