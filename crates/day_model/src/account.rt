//! Accounts.

use corr_ids::Bic;
use corr_money::Ccy;
use corr_text::Text;

/// The number of an account: its place in the table of accounts, from 1.
#[derive(Clone, Copy, Debug, PartialEq, Eq)]
pub struct AcctNo(pub u32);

/// An account: `kind` is `C` (a customer's), `V` (vostro), `N` (nostro) or `F` (the home bank's own, for charges).
///
/// `floor` and `ceil` are the least and the greatest balance that a booking may leave, `opening` is the balance before the
/// first entry: in minor units, credits positive.
#[derive(Debug, Drop)]
pub struct Account {
    pub id: Text,
    pub kind: u8,
    pub owner: Bic,
    pub ccy: Ccy,
    pub decimals: u8,
    pub floor: i64,
    pub ceil: i64,
    pub opening: i64,
}
