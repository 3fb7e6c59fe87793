//! The frames of a run: which body a call comes to, how it is entered and left, and where a raised
//! value goes.
#![tactic(auto)]

mod bodies;
mod frames;
mod landing;
mod target;

pub use bodies::{code_of, initialisers};
pub use frames::Frames;
pub use landing::{Landing, lands};
pub use target::call_target;
