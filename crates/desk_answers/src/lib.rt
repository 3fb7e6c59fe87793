//! What the desk tells a party, as answers of HTTP with bodies of JSON.
#![tactic(auto)]

mod answers;
mod bodies;
mod lines;
mod put;
mod refused;
mod shown;
mod text;
mod words;

pub use answers::{answer_of, answer_to_fault, error_answer, no_memory, store_failed};
