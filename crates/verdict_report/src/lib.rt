//! The report that says a verdict.
#![tactic(auto)]

mod printed;
mod reasons;
mod reporting;
mod unfit;

pub use reasons::{push_part_name, put_form_reason};
pub use reporting::report;
pub use unfit::{Unfit, put_unfit};
