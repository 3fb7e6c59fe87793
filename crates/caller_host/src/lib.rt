//! The adapter of the system for a client: a caller that dials ports of this machine. It is a few lines each, tells
//! nothing of what comes, and counts its failures.
#![tactic(auto)]

mod tcp_caller;

pub use tcp_caller::TcpCaller;
