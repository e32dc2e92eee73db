//! The order of an MT202 COV's fields.

use fin_layout::{Place, any, may, one};

/// The places of an MT202 COV's fields, numbered from 0.
///
/// Sequence A: 20, 21, 13C*, 32A, 52a, 53a, 54a, 56a, 57a, 58a, 72. Sequence B: 50a, 52a, 56a, 57a, 59a, 70, 72, 33B. `*` may
/// stand more than once. 20, 21, 32A, 58a, 50a and 59a must be there. 52a, 56a, 57a and 72 have a place in each sequence.
pub const ORDER: [Place; 19] = [
    one!(20, b"    "),
    one!(21, b"    "),
    any!(13, b"CCCC"),
    one!(32, b"AAAA"),
    may!(52, b"ADDD"),
    may!(53, b"ABDD"),
    may!(54, b"ABDD"),
    may!(56, b"ADDD"),
    may!(57, b"ABDD"),
    one!(58, b"ADDD"),
    may!(72, b"    "),
    one!(50, b"AFKK"),
    may!(52, b"ADDD"),
    may!(56, b"ACDD"),
    may!(57, b"ABCD"),
    one!(59, b" AFF"),
    may!(70, b"    "),
    may!(72, b"    "),
    may!(33, b"BBBB"),
];
