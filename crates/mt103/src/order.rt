//! The order of an MT103's fields.

use fin_layout::{Place, any, may, one};

/// The places of an MT103's fields, numbered from 0: 20, 13C*, 23B, 23E*, 26T, 32A, 33B, 36, 50a, 52a, 53a, 54a, 55a, 56a,
/// 57a, 59a, 70, 71A, 71F*, 71G, 72, 77B; `*` may stand more than once. 20, 23B, 32A, 50a, 59a and 71A must be there.
pub const ORDER: [Place; 22] = [
    one!(20, b"    "),
    any!(13, b"CCCC"),
    one!(23, b"BBBB"),
    any!(23, b"EEEE"),
    may!(26, b"TTTT"),
    one!(32, b"AAAA"),
    may!(33, b"BBBB"),
    may!(36, b"    "),
    one!(50, b"AFKK"),
    may!(52, b"ADDD"),
    may!(53, b"ABDD"),
    may!(54, b"ABDD"),
    may!(55, b"ABDD"),
    may!(56, b"ACDD"),
    may!(57, b"ABCD"),
    one!(59, b" AFF"),
    may!(70, b"    "),
    one!(71, b"AAAA"),
    any!(71, b"FFFF"),
    may!(71, b"GGGG"),
    may!(72, b"    "),
    may!(77, b"BBBB"),
];
