//! Writes the bytes of a DEX file of version 035: its id tables, which are filled by name, and its classes.
#![tactic(auto)]

mod bytes;
mod class_data;
mod code_item;
mod file;
mod id_row;
mod interner;
mod law;
mod tables;

pub use file::write_dex;
pub use law::{added_rows_are_found, tries_are_aligned};
pub use tables::Tables;
