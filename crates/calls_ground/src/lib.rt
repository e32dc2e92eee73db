//! Each public call of the crates of ground and edge once, on a small value. Tables of cases are rows.
#![tactic(auto)]

#[cfg(test)]
mod disks;
#[cfg(test)]
mod identifiers;
#[cfg(test)]
mod money;
#[cfg(test)]
mod sources;
#[cfg(test)]
mod texts;
