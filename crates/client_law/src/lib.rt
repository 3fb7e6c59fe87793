//! That a submission acts once, however often it is sent and whatever of it and of its replies is lost.
#![tactic(auto)]

ghost use Rattle.client_law.specs.Tried.{ActsOnce};

use desk_serving::Judge;

/// Whoever judges: over any connections of a developer's client that send one submission again and again, each time
/// whole or only a front of it and each reply lost or not, and any connections of others between, the developer has the
/// cases that were there before, in their order, with at most one more, which is this one. It is there where some reply
/// was 200 or 201.
pub fn a_submission_acts_once<J: Judge>()
    ensures { (judge : J) → ActsOnce (J.finds judge) (J.edition judge) }
{}
