//! Ways to pay a bank.

/// How a bank is paid: booked on its account with us (`BOOK`), or over a bank between, by a serial transfer (`SERIAL`) or with
/// a cover (`COVER`).
#[derive(Clone, Copy, Debug, PartialEq, Eq)]
pub enum Method {
    Book,
    Serial,
    Cover,
}
