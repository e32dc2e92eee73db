//! The public calls of a journal's file, over disks in memory and a real file, and of the file of messages that leave.
#![tactic(auto)]

#[cfg(test)]
mod batches;
#[cfg(test)]
mod carried;
#[cfg(test)]
mod files;
#[cfg(test)]
mod lengths;
#[cfg(test)]
mod mending;
