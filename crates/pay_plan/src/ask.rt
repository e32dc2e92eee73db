//! Messages that ask for a pay.

use mt103::Mt103;
use mt202cov::Mt202Cov;

/// A message that asks for a pay: a customer transfer or a cover payment.
#[derive(Clone, Copy)]
pub enum Ask<'a> {
    Transfer(&'a Mt103),
    Cover(&'a Mt202Cov),
}
