//! The verdict on the parts of an app: what its bytes come to.
#![tactic(auto)]

mod dexes;
mod judging;
mod laws;
mod linking;
mod outcome;
mod papers;
mod parts;
mod rejudging;

pub use app_flow::{Analysis, FlowRows, FlowTable, RowDefect, TableDefect};
pub use judging::{judge, judge_linked};
pub use laws::{a_clear_verdict_is_of_a_safe_app, lower_laws};
pub use linking::{Linked, linked_parts};
pub use outcome::{Judged, Outcome, Part, Reason, Rechecked, status_for};
pub use outcomes::{Cause, Finding, MethodName, Place};
pub use papers::{Halt, Papers, Refusal};
pub use parts::Parts;
pub use rejudging::judge_table;
