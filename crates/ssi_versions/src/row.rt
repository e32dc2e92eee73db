//! A row of the table of instructions.

use crate::method::Method;
use corr_ids::{Bic, Day};
use corr_money::Ccy;
use corr_text::Text;

/// An instruction as the table has it, for example `EUR,BETAFRPP,SERIAL,CORRBEBB,NCORREUR,240701,791231`.
///
/// `bank` is a BIC of 8 or 11 characters as the row spells it, or `*` for any bank; `via` is the bank between, none
/// with `BOOK`; `account` is an account's id, which need not exist. The row is in force from the day `from` to the day
/// before `until`.
#[derive(Debug, Drop)]
pub struct SsiRow {
    pub ccy: Ccy,
    pub bank: Text,
    pub method: Method,
    pub via: Option<Bic>,
    pub account: Text,
    pub from: Day,
    pub until: Day,
}
