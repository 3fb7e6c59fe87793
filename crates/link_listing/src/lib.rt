//! What the DEX files and the manifest of an app list: classes, fields, methods and components by name, or the first
//! that is listed a second time or has no class.
#![tactic(auto)]

mod classes;
mod components;
mod fault;
mod flags;
mod gathered;
mod members;
mod texts;
mod weight;

pub use classes::{Classes, class_named, holds_name};
pub use components::providers_of;
pub use fault::{Fault, Halt, Limit};
pub use gathered::{Parts, gather};
pub use members::{Fields, Listed, Methods, Place, Triple, descriptor};
pub use texts::{
    add_copies, field_at, method_at, method_row_at, names_copied, proto_at, proto_copied, type_at,
};
pub use weight::{NAMES, name_cost, parameter_count, spend};
