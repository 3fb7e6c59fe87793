//! Reads the lists of the office: the categories, what is said of the library's classes, shared objects, methods and
//! callbacks, what is said of a device, and how large apps are judged.
#![tactic(auto)]

mod callbacks;
mod classes;
mod device;
mod large;
mod lists;
mod methods;

pub use large::Large;
pub use lists::{StoreLists, read_lists};
