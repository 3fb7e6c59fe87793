//! Why a certificate is refused, and the text that says so.
#![tactic(auto)]

mod refusal;
mod reporting;
mod spelled;

pub use refusal::CertRefusal;
pub use reporting::{put_row_text, report_refusal};
