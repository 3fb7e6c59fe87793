//! That the readers of code and of forms have one answer each: a value or a fault stands in what is read, never both
//! and never two.
#![tactic(auto)]

mod laws;

pub use laws::{decoding_has_one_answer, forms_have_one_answer, one_client_or_fault};
