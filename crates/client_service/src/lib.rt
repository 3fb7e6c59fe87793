//! The command `submit DIR REF`: the app of a folder goes to the desk on this machine, over files, a sink and a caller.
#![tactic(auto)]

mod client;
mod content;
mod outside;
mod ready;
mod run;
mod saying;
mod texts;
mod words;

pub use outside::Status;
pub use ready::Refusal;
pub use run::submit;
