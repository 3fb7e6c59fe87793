//! Replies of the desk as bytes of HTTP/1.1 over a link, each with the first fault of bytes that are none.
#![tactic(auto)]

mod answered;
mod fields;
mod head;
mod law;
mod reply;

pub use answered::{Answered, ReplyFault};
pub use law::replies_have_one_answer;
pub use reply::read_reply;
