//! The public calls of the locks of accounts, with threads that meet, and of the accounts' changes.
#![tactic(auto)]

#[cfg(test)]
mod changes_of_accounts;
#[cfg(test)]
mod lists;
#[cfg(test)]
mod locks;
