//! What a run keeps while it is played: labels, values, the registers of frames, and the script.
#![tactic(auto)]

mod frame;
mod labels;
mod script;
mod value;
mod values;

pub use frame::{Called, EXCEPTION, RESULT, Registers};
pub use labels::Labels;
pub use script::Script;
pub use value::{Held, held_or_blank};
pub use values::Values;
