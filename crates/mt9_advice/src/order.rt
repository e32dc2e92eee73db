//! The orders of the fields of an MT900 and an MT910.

use fin_layout::{Place, may, one};

const REFERENCE: Place = one!(20, b"    ");

const RELATED: Place = one!(21, b"    ");

const ACCOUNT: Place = one!(25, b"    ");

const STAMP: Place = may!(13, b"DDDD");

const VALUE: Place = one!(32, b"AAAA");

const PAYER: Place = may!(50, b"AFKK");

const ORDERING: Place = may!(52, b"ADDD");

const INTERMEDIARY: Place = may!(56, b"ADDD");

const NOTES: Place = may!(72, b"    ");

/// The places of an MT900's fields, numbered from 0: 20, 21, 25, 13D, 32A, 52a, 72. 20, 21, 25 and 32A must be there.
pub const ORDER_900: [Place; 7] = [REFERENCE, RELATED, ACCOUNT, STAMP, VALUE, ORDERING, NOTES];

/// The places of an MT910's fields, numbered from 0: 20, 21, 25, 13D, 32A, 50a, 52a, 56a, 72. 20, 21, 25 and 32A must be
/// there.
pub const ORDER_910: [Place; 9] = [
    REFERENCE,
    RELATED,
    ACCOUNT,
    STAMP,
    VALUE,
    PAYER,
    ORDERING,
    INTERMEDIARY,
    NOTES,
];
