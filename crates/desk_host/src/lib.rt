//! The adapters of the system for a desk that serves: a door on a port of this machine, and its clock. They tell
//! nothing of what comes, and count their failures.
#![tactic(auto)]

mod held;
mod host_clock;
mod parting;
mod pause;
mod present;
mod queue;
mod seeming;
mod tcp_door;

pub use host_clock::HostClock;
pub use tcp_door::TcpDoor;
