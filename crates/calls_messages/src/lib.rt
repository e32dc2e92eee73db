//! Each public call of the crates of messages once, on a small value. Tables of cases are rows.
#![tactic(auto)]

#[cfg(test)]
mod advices;
#[cfg(test)]
mod covers;
#[cfg(test)]
mod cutting;
#[cfg(test)]
mod rules;
#[cfg(test)]
mod statements;
#[cfg(test)]
mod transfers;
#[cfg(test)]
mod verdicts;
