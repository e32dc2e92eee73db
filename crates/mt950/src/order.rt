//! The order of an MT950's fields.

use fin_layout::{Place, any, may, one};

/// The places of an MT950's fields, numbered from 0: 20, 25, 28C, 60a, 61*, 62a, 64; `*` may stand more than once. 20, 25, 28C,
/// 60a and 62a must be there.
pub const ORDER: [Place; 7] = [
    one!(20, b"    "),
    one!(25, b"    "),
    one!(28, b"CCCC"),
    one!(60, b"FMMM"),
    any!(61, b"    "),
    one!(62, b"FMMM"),
    may!(64, b"    "),
];
