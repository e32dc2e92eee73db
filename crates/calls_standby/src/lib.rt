//! The public calls of the standby: packets, a follower over disks in memory, and a world of a leader and a follower.
#![tactic(auto)]

#[cfg(test)]
mod followers;
#[cfg(test)]
mod worlds;
