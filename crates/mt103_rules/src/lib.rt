//! The rules of a customer transfer: what its fields ask of one another (docs/messages.md, "Rules of the MT103"). The function
//! of a rule says what must hold, and answers the fault of a transfer where it doesn't.
#![tactic(auto)]

mod amounts;
mod broken;
mod charges;
mod codes;
mod first;
mod institutions;
mod instructions;
mod levels;
mod operation;
mod parties;

pub use codes::{
    C02, C81, D49, D50, D51, D75, E01, E02, E03, E04, E05, E06, E07, E09, E10, E13, E15, E16, E17,
    E18, E44, E45,
};
pub use first::first_rule;
