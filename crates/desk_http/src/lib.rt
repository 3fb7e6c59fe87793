//! Requests and replies of the desk as bytes of HTTP/1.1 over a link.
#![tactic(auto)]

mod asked;
mod empty_line;
mod fields;
mod head;
mod law;
mod piece;
mod reply;
mod request;

pub use asked::{Asked, HttpFault};
pub use empty_line::head_end;
pub use law::requests_have_one_answer;
pub use piece::read_piece;
pub use reply::{Answer, SendFault, write_reply};
pub use request::read_request;
