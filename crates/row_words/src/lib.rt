//! The words of a row, and the answer that a call gives to it.
#![tactic(auto)]

pub mod answer;
pub mod stop;
pub mod words;
