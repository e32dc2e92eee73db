//! A party of a message.

use corr_ids::Bic;
use corr_text::{List, Text};

/// An institution or a customer, by the letter of its field. 59 without a letter is `K`.
///
/// `line` is the whole first line with its `/`, `account` is what stands after that `/`, and `lines` are the lines
/// after it. In 50F `line` is the first line, whatever it begins with.
///
/// Example: `:53B:/C/12` and `PARIS` are `B` with the line `/C/12` and the place `PARIS`; `:59:/CUST1` and `A PAYEE` are
/// `K` with the account `CUST1` and the line `A PAYEE`.
#[derive(Debug, Drop)]
pub enum Party {
    A {
        line: Option<Text>,
        bic: Bic,
    },
    B {
        line: Option<Text>,
        place: Option<Text>,
    },
    C {
        line: Text,
    },
    D {
        line: Option<Text>,
        lines: List<Text>,
    },
    K {
        account: Option<Text>,
        lines: List<Text>,
    },
    F {
        line: Option<Text>,
        lines: List<Text>,
    },
}
