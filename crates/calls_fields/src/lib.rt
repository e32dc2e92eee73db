//! Each public call of the crates of fields and tables once, on a small value. Tables of cases are rows.
#![tactic(auto)]

#[cfg(test)]
mod blocks;
#[cfg(test)]
mod contents;
#[cfg(test)]
mod fields;
#[cfg(test)]
mod frames;
#[cfg(test)]
mod instructions;
#[cfg(test)]
mod layout;
#[cfg(test)]
mod parties;
#[cfg(test)]
mod tables;
#[cfg(test)]
mod written_blocks;
