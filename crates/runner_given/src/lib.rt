//! What the script gives a library call: an element of a position's object, or an object that the library has.
#![tactic(auto)]

mod choosing;
mod giving;
mod others;

pub use giving::given;
