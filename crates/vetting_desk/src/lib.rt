//! The vetting desk: the top call over the words of the command line, files and a sink, with the adapters of the
//! system.
#![tactic(auto)]

mod answer;
mod asked;
mod certificates;
mod finding;
mod host;
mod making;
mod run;
mod summary;
mod words;

pub use answer::Status;
pub use host::{HostFiles, StandardSink};
pub use run::vet;
pub use words::words_given;
