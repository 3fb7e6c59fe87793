//! Links the DEX files, the manifest and the layouts of an app into one `App`.
#![tactic(auto)]

mod calls_listed;
mod climbs;
mod frame;
mod keys;
mod law;
mod linking;

pub use law::one_app_or_fault;
pub use linking::{LinkFault, link};
