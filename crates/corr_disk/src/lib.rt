//! One file as a journal sees it: what a read gives now, what a crash may leave, and how often it has failed.
#![tactic(auto)]

mod disk;
mod file_disk;
mod file_watch;
mod fuse_disk;
mod held_file;
mod mem_disk;
mod once_disk;
mod past;
mod plan;
mod planned_disk;

pub use corr_text::Failed;
pub use disk::{Disk, MOST_DISK_BYTES};
pub use file_disk::FileDisk;
pub use file_watch::FileWatch;
pub use fuse_disk::FuseDisk;
pub use held_file::Trouble;
pub use mem_disk::MemDisk;
pub use once_disk::OnceDisk;
