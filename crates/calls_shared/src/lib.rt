//! The public calls of what threads share: books over disks in memory, the word of what was acknowledged, and workers.
#![tactic(auto)]

#[cfg(test)]
mod batches;
#[cfg(test)]
mod books;
#[cfg(test)]
mod broken;
#[cfg(test)]
mod fronts;
#[cfg(test)]
mod places;
#[cfg(test)]
mod workers;
