//! The route of a payment.

use corr_ids::Bic;
use day_model::AcctNo;
use ssi_versions::Method;

/// The accounts that a payment is booked on, and how its money leaves: by `method`, none where it is for a customer, and
/// over the bank `via`, none with `Method::Book`.
#[derive(Clone, Copy, Debug, PartialEq, Eq)]
pub struct Routed {
    pub debit: AcctNo,
    pub credit: AcctNo,
    pub method: Option<Method>,
    pub via: Option<Bic>,
}
