//! That a DEX file which `dex_maker` makes of a listing is read by `dex_reader` as the listing.
#![tactic(auto)]

mod back;
mod law;

pub use back::read_back;
pub use law::{each_class_is_read_back, listings_read_again};
