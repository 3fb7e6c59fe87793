//! What a row of the lists says of a method: its prototype, what tells it from others, positions among its arguments,
//! and its result.
#![tactic(auto)]

mod descriptor;
mod gives;
mod positions;
mod signature;

pub use descriptor::proto_of;
pub use gives::{GivesWord, gives_at};
pub use positions::{
    flag_at, has_key, items_at, listed_at, named_at, named_row, pairs_at, positions_at,
};
pub use signature::{
    MethodKey, Signature, gives_reference, keys_once, position_count, proto_at, type_at,
};
