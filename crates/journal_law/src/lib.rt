//! What bytes hold as a journal of cases: a log with a record for each change, each of which fits. Bytes hold one list
//! of cases, or are foreign, or are bad at one place.
#![tactic(auto)]

mod fitting;
mod law;

pub use fitting::fits_found;
pub use law::{a_journal_has_one_reading, the_test_says_what_fits};
