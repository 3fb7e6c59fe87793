//! The tables of a DEX file: its header, its strings, types, prototypes, fields and methods, and the lists
//! of types; with the numbers and texts of which they are made, and the faults that a file may have.
#![tactic(auto)]

mod dex;
mod fault;
mod header;
mod ids;
mod parts;
mod place;
mod strings;
mod type_lists;

pub use dex::{Body, ClassDef, Dex, FieldId, Member, MethodRow, ProtoId, RawCode, RawTry};
pub use fault::{Fault, Field, Limit, ReadError, Table};
pub use header::{Header, Section, header_of};
pub use ids::{fields_of, methods_of, protos_of, types_of};
pub use parts::{sleb_of, test_index, test_table, text_of, u2_of, u4_of, uleb_of};
pub use place::{Place, Sizes, Totals};
pub use strings::strings_of;
pub use type_lists::{NamedList, type_list_of};
