//! A row of the table of accounts.

use corr_ids::Bic;
use corr_money::Ccy;
use corr_text::Text;

/// An account as the table has it, for example `VALPHEUR,V,ALPHDEFF,EUR,-10000000,90000000000,5000000`.
///
/// `id` is 1 to 34 capital letters and digits. `kind` is `C` (a customer's), `V` (vostro), `N` (nostro) or `F` (of fees); `owner`
/// is the home bank with `C` and `F`, else the other bank; `decimals` are those of the currency. `floor` and `ceil` are the least
/// and the greatest balance that a booking may leave, `opening` is the balance before the first entry: in minor units, credits
/// positive.
#[derive(Debug, Drop)]
pub struct AccountRow {
    pub id: Text,
    pub kind: u8,
    pub owner: Bic,
    pub ccy: Ccy,
    pub decimals: u8,
    pub floor: i64,
    pub ceil: i64,
    pub opening: i64,
}
