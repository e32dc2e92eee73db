//! Each public call of advices, of pay_returns, of statement, of mt940_out and of reconcile once, on a small value.
#![tactic(auto)]

#[cfg(test)]
mod customers;
#[cfg(test)]
mod given;
#[cfg(test)]
mod orders;
#[cfg(test)]
mod received;
#[cfg(test)]
mod returns;
#[cfg(test)]
mod statements;
