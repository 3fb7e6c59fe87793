//! Writes DEX files of version 035 from a listing of their classes.
#![tactic(auto)]

mod classes;
mod codes;
mod fault;
mod fits;
mod law;
mod limits;
mod listing;
mod make;
mod naming;
mod payloads;
mod spelling;
mod widths;

pub use fault::MakeFault;
pub use law::tables_are_short;
pub use limits::is_makeable;
pub use listing::{
    ListedClass, ListedCode, ListedField, ListedLine, ListedMethod, ListedTry, Listing, Operand,
};
pub use make::make_dex;
