//! The public calls of the journal's book, over disks in memory, and of its records.
#![tactic(auto)]

#[cfg(test)]
mod batches;
#[cfg(test)]
mod books;
#[cfg(test)]
mod changed_books;
#[cfg(test)]
mod charged;
#[cfg(test)]
mod records;
