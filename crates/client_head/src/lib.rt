//! The head of a submission's request as bytes of HTTP/1.1, which the desk reads as what it was made of.
#![tactic(auto)]

mod head;

pub use head::request_head;
