//! What an MT202 COV says.

use corr_ids::Day;
use corr_money::Amount;
use corr_text::{List, Text};
use fin_parties::Party;

/// A cover payment: sequence A between banks, and sequence B, the customer transfer that it covers.
#[derive(Debug, Drop)]
pub struct Mt202Cov {
    /// Field 20, the sender's reference.
    pub reference: Text,
    /// Field 21, the reference of the transfer that is covered.
    pub related: Text,
    /// Each 13C, a time.
    pub times: List<Text>,
    /// The value date of 32A.
    pub value: Day,
    /// The amount of 32A, above zero.
    pub amount: Amount,
    /// 52a of sequence A, the ordering institution.
    pub a52: Option<Party>,
    /// 53a, the sender's correspondent.
    pub a53: Option<Party>,
    /// 54a, the receiver's correspondent.
    pub a54: Option<Party>,
    /// 56a of sequence A, the intermediary.
    pub a56: Option<Party>,
    /// 57a of sequence A, the account with institution.
    pub a57: Option<Party>,
    /// 58a, the beneficiary institution.
    pub a58: Party,
    /// The lines of 72 of sequence A, sender to receiver; none without the field.
    pub a_notes: List<Text>,
    /// 50a, the ordering customer.
    pub payer: Party,
    /// 52a of sequence B, the ordering institution.
    pub b52: Option<Party>,
    /// 56a of sequence B, the intermediary institution.
    pub b56: Option<Party>,
    /// 57a of sequence B, the account with institution.
    pub b57: Option<Party>,
    /// 59a, the beneficiary customer.
    pub payee: Party,
    /// The lines of 70, information for the beneficiary; none without the field.
    pub info: List<Text>,
    /// The lines of 72 of sequence B, sender to receiver; none without the field.
    pub b_notes: List<Text>,
    /// 33B, the amount that was ordered.
    pub ordered: Option<Amount>,
}
