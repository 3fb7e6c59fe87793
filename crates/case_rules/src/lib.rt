//! The rules of the desk: what a command of a developer or a reviewer is answered, and what it
//! changes in the list of cases.
#![tactic(auto)]

mod case;
mod command;
mod copies;
mod forms;
mod laws;
mod looks;
mod planning;
mod reply;

pub use case::{
    Appeal, Case, Content, Decision, Entry, Line, OutcomeWord, Ruling, RulingWord, State,
};
pub use command::{Command, View};
pub use forms::is_appeal_text;
pub use laws::{
    a_developer_sees_the_own_cases, a_refusal_changes_nothing, a_run_is_its_commands,
    each_thing_is_done_once, earlier_cases_are_treated_as_before, what_fits_keeps_a_docket,
};
pub use planning::{plan, settle};
pub use reply::{Change, Plan, Refusal, Reply};
