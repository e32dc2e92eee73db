//! A standby: the records of a journal as packets, and a second machine whose journal is a front of the first's, whatever the link
//! between them loses, repeats or reorders.
#![tactic(auto)]

mod adding;
mod answer;
mod beginning;
mod event;
mod follower;
mod making;
mod packet;
mod place;
mod shipping;
mod stage;
mod taking;
mod world;

pub use answer::{TakeFault, Took};
pub use event::WorldEvent;
pub use follower::Follower;
pub use packet::{Packet, first_packet};
pub use shipping::packets;
pub use world::World;
