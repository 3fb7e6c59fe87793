//! Per type the handed places whose objects are below it. Each place is looked at once for each type that is asked for,
//! as more places are handed.
#![tactic(auto)]

mod below;
mod belows;
mod looking;

pub use belows::{Belows, belows_stay};
