//! What is asked of events at many rows, in tables that are made once, before the search: which
//! classes are below which types, which callbacks come to objects of a class, and which bodies the
//! events of components run.
#![tactic(auto)]

mod asked;
mod below_table;
mod bits;
mod bodies;
mod comings;
mod event_index;
mod keys;
mod kinds;
mod listed;
mod names;
mod order;
mod settling;
mod taker;

pub use comings::Coming;
pub use event_index::EventIndex;
pub use taker::Taker;
