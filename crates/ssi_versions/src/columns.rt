//! The forms of the columns that no other table has (docs/tables.md, "ssi"). What is read of a cell is none where the cell has
//! another form.

ghost use Rattle.std.specs.Prelude.{◌≡◌};
ghost use Rattle.ssi_versions.specs.Rows.{is_bank_text, method_of, via_of};

use crate::method::Method;
use corr_ids::{Bic, read_bic};

/// Whether this is `*` or a BIC.
pub fn is_bank(b: &[u8]) -> bool
    ensures { result ≡ is_bank_text b.now }
{
    b == b"*".as_slice() || read_bic(b).is_some()
}

/// `BOOK`, `SERIAL` or `COVER`.
pub fn method(b: &[u8]) -> Option<Method>
    ensures { result ≡ method_of b.now }
{
    if b == b"BOOK".as_slice() {
        return Some(Method::Book);
    }
    if b == b"SERIAL".as_slice() {
        return Some(Method::Serial);
    }
    if b == b"COVER".as_slice() {
        return Some(Method::Cover);
    }
    None
}

/// The bank between: nothing with `BOOK`, else a BIC.
pub fn via(method: Method, b: &[u8]) -> Option<Option<Bic>>
    ensures { result ≡ via_of method b.now }
{
    match method {
        Method::Book if b.is_empty() => Some(None),
        Method::Book => None,
        Method::Serial | Method::Cover => Some(Some(read_bic(b)?)),
    }
}
