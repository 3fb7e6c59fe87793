//! A submission as bytes of HTTP/1.1, as a developer's client sends it to the desk.
#![tactic(auto)]

mod law;
mod request;

pub use law::a_submission_is_read_as_one;
pub use request::{MakeFault, request_bytes};
