//! Apps that are judged ahead of the reviewer who asks: a worker beside the server judges what is in the queue, and the
//! server takes from its memo what was found, or judges. It is proved over whoever judges and whatever is found.
#![tactic(auto)]

mod ahead;
mod finding;
mod found;
mod memo;
mod serving;
mod shelf;

pub use serving::serve_ahead;
