//! Why a device may do more than the machine, as far as app and lists tell.
#![tactic(auto)]

mod causes;
mod clicks;
mod hidden;
mod interfaces;
mod libraries;
mod order;
mod packages;
mod path;
mod platform;
mod seen;
mod sets;
mod superclasses;

pub use causes::device_causes;
