//! Each public call of the crates of books and plans once, on a small value. Tables of cases are rows.
#![tactic(auto)]

#[cfg(test)]
mod balances;
#[cfg(test)]
mod given;
#[cfg(test)]
mod histories;
#[cfg(test)]
mod pages;
#[cfg(test)]
mod plans;
#[cfg(test)]
mod reports;
#[cfg(test)]
mod routes;
#[cfg(test)]
mod totals;
