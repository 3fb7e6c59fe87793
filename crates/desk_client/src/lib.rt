//! A client of the desk: it dials, writes its request and reads the reply, and tries again where none came.
#![tactic(auto)]

mod one_try;
mod submission;

pub use one_try::TryFault;
pub use submission::{SubmitFault, submit};
