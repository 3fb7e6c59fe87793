//! What the rows of an app say of it: why nothing certain can be said, and what is found. Each in
//! ascending order and once.
#![tactic(auto)]

ghost use Rattle.outcomes.specs.NothingLeftOut.{EachIsFound, EachIsNamed};

mod ascending;
mod causes;
mod findings;
mod names;
mod outcome;
mod places;

pub use ascending::{ascending_of, set_of};
pub use causes::{causes_of, causes_too_large, class_names};
pub use findings::{Found, Pair, findings_of, pairs_in, undeclared_at};
pub use names::copied;
pub use outcome::{Cause, Finding, MethodName, Place};
pub use places::place_in;

/// The pair of each arrival that rows of an app tell of is declared, or the arrival is among the findings;
/// and each place where they say that a run may come to what is not modelled is among the causes.
pub fn nothing_is_left_out()
    ensures findings { EachIsFound }
    ensures causes { EachIsNamed }
{}
