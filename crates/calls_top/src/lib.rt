//! The commands over files, sinks and disks, also such that fail or stop, and with workers that meet, each by the top call.
#![tactic(auto)]

#[cfg(test)]
mod ahead;
#[cfg(test)]
mod batches;
#[cfg(test)]
mod charges;
#[cfg(test)]
mod faults;
#[cfg(test)]
mod gates;
#[cfg(test)]
mod leaving;
#[cfg(test)]
mod pieces;
#[cfg(test)]
mod reports;
#[cfg(test)]
mod statuses;
#[cfg(test)]
mod stops;
#[cfg(test)]
mod transfers;
#[cfg(test)]
mod versions;
