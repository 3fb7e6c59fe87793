//! The desk as it serves: a command carried out over a keeper's
//! cases, one connection, and connections one after the other.
#![tactic(auto)]

mod judge;
mod obeying;
mod responding;
mod run;
mod serving;

pub use judge::{Desk, Judge, Judged};
pub use obeying::obey;
pub use run::serve_door;
pub use serving::{Served, serve_one, unasked};
