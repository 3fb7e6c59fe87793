//! The parts of a step of a run: what an instruction does, in its method, to a body or back to its caller, and where
//! it raises. What each needs of the script is drawn first, and only then anything is changed.
#![tactic(auto)]

mod acting;
mod calling;
mod doing;
mod ground;
mod library;
mod playing;
mod raising;
mod returning;

pub use acting::{act, one_of};
pub use calling::call_body;
pub use doing::{Doing, doing_here};
pub use ground::Ground;
pub use library::call_given;
pub use playing::Playing;
pub use raising::raise;
pub use returning::return_from;
