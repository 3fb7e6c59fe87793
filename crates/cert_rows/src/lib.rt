//! The bytes of one row of a certificate: how a row is written, and how it is read again.
#![tactic(auto)]

mod activation_rows;
mod contexts;
mod fault;
mod fields;
mod kinds;
mod label_rows;
mod law;
mod node_rows;
mod numbers;
mod other_rows;
mod paths;
mod rows;
mod sets;
mod site_rows;
mod sites;

pub use fault::RowFault;
pub use law::{rows_are_found, rows_are_read_again};
pub use numbers::u4_from;
pub use rows::{put_row, row_from};
pub use sets::Set;
