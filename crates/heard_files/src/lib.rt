//! Files and a sink that remember, for proofs alone, what reads gave and what was handed over: as traits, and over any
//! files and any sink.
#![tactic(auto)]

mod handed;
mod handing;
mod heard;
mod hearing;
mod outside;
mod spelled;

pub use handed::Handed;
pub use handing::Handing;
pub use heard::Heard;
pub use hearing::Hearing;
pub use outside::{Files, Sink};
pub use spelled::Spelled;
