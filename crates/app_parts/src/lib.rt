//! What the parts of a linked app and of the lists say by themselves: an act, a type, a call and its
//! positions, the parameters of an event, a row. They take no memory and search in no table.
#![tactic(auto)]

mod acts;
mod kinds;
mod layout;
mod places;
mod puts;
mod summary_view;
mod types;

pub use acts::{RESULT, class_initialised, key_named, names_register, static_named, writes};
pub use kinds::{is_by_receiver, is_static_call};
pub use layout::{parameter_type, position_at};
pub use places::{is_position, place_at};
pub use puts::{is_put_from, is_put_into, put_at, put_count};
pub use summary_view::{
    CallResult, SummaryView, copies, is_joined_from, is_reflective, result_of, sink, source, stores,
};
pub use types::{is_reference, is_void, is_wide};
