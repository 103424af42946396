//! A disk of two areas as a spool sees it.
#![tactic(auto)]

mod crash;
mod disk;
mod file_disk;
mod kept_call;
mod mem_disk;
mod schedule;

pub use disk::Disk;
pub use file_disk::FileDisk;
pub use mem_disk::MemDisk;
pub use schedule::DiskCall;
