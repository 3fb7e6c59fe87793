//! The adapter of the system for disks: a file. It is a few lines, tells nothing of what the file holds, and counts its
//! failures.
#![tactic(auto)]

mod file_disk;
mod opening;

pub use file_disk::FileDisk;
