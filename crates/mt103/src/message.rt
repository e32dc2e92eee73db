//! What an MT103 says.

use crate::instruction::Instr;
use corr_ids::Day;
use corr_money::{Amount, Ccy, Minor};
use corr_text::{List, Text};
use fin_parties::Party;
use std::alloc::Global;

/// A customer transfer.
#[derive(Debug, Drop)]
pub struct Mt103 {
    /// Field 20, the sender's reference.
    pub reference: Text,
    /// Each 13C, a time.
    pub times: List<Text>,
    /// 23B, the operation: CRED, CRTS, SPAY, SPRI or SSTD.
    pub op: [u8; 4],
    /// Each 23E, an instruction.
    pub instrs: List<Instr>,
    /// 26T, the kind of transaction.
    pub kind: Option<[u8; 3]>,
    /// The value date of 32A.
    pub value: Day,
    /// The amount of 32A, above zero.
    pub amount: Amount,
    /// 33B, the amount that was ordered.
    pub ordered: Option<Amount>,
    /// 36, the exchange rate, as it is written.
    pub rate: Option<Text>,
    /// 50a, the ordering customer.
    pub payer: Party,
    /// 52a, the ordering institution.
    pub p52: Option<Party>,
    /// 53a, the sender's correspondent.
    pub p53: Option<Party>,
    /// 54a, the receiver's correspondent.
    pub p54: Option<Party>,
    /// 55a, the third institution for the cover.
    pub p55: Option<Party>,
    /// 56a, the intermediary institution.
    pub p56: Option<Party>,
    /// 57a, the account with institution.
    pub p57: Option<Party>,
    /// 59a, the beneficiary.
    pub payee: Party,
    /// The lines of 70, information for the beneficiary; none without the field.
    pub info: List<Text>,
    /// 71A, who bears the charges: OUR, SHA or BEN.
    pub charge: [u8; 3],
    /// Each 71F, charges that a sender took.
    pub taken: List<Amount>,
    /// 71G, charges that come with the transfer.
    pub given: Option<Amount>,
    /// The lines of 72, sender to receiver; none without the field.
    pub notes: List<Text>,
    /// The lines of 77B, regulatory reporting; none without the field.
    pub regulatory: List<Text>,
}

fn no_text(alloc: Global) -> Text {
    Text::from_vec(Vec::new(alloc))
}

fn no_party(alloc: Global) -> Party {
    Party::C {
        line: no_text(alloc),
    }
}

/// A place for a message to be read into: it says nothing yet.
pub fn blank(alloc: Global) -> Mt103 {
    Mt103 {
        reference: no_text(alloc),
        times: List::new(alloc),
        op: [0; 4],
        instrs: List::new(alloc),
        kind: None,
        value: Day(0),
        amount: Amount {
            ccy: Ccy([0; 3]),
            minor: Minor(0),
            decimals: 0,
        },
        ordered: None,
        rate: None,
        payer: no_party(alloc),
        p52: None,
        p53: None,
        p54: None,
        p55: None,
        p56: None,
        p57: None,
        payee: no_party(alloc),
        info: List::new(alloc),
        charge: [0; 3],
        taken: List::new(alloc),
        given: None,
        notes: List::new(alloc),
        regulatory: List::new(alloc),
    }
}
