//! Disks: bytes that stay, what a crash may leave of them, and what each call does to both; and a disk in memory.
#![tactic(auto)]

mod calls;
mod disk;
mod law;
mod mem_disk;
mod shot;

pub use calls::DiskCall;
pub use disk::{Disk, DiskFault};
pub use law::what_is_read_may_be_left;
pub use mem_disk::MemDisk;
