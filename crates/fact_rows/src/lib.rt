//! Facts about the runs of an app, one a row.
//!
//! The order of every type here is that of its bytes in a certificate: variants in the order in
//! which they stand, and then field by field.
#![tactic(auto)]

ghost use Rattle.fact_rows.specs.Order.{RowOrder};

mod cause;
mod context;
mod field;
mod fields;
mod kind;
mod parts;
mod row;
mod site;
mod table;

pub use cause::{NATIVE, NO_SUMMARY, REFLECTIVE};
pub use context::{Activation, Ctx, Node};
pub use field::Field;
pub use fields::Fields;
pub use kind::Kind;
pub use parts::Parts;
pub use row::Row;
pub use site::Site;
pub use table::Table;

/// The order of rows is total and tells all rows apart, and it is that of their parts and of their
/// numbers: the kind, and then field by field.
pub fn rows_stand_in_order()
    ensures { RowOrder }
{}
