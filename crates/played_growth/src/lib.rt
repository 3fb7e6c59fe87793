//! What a step of a run leaves as it was: each object keeps its place and its class, and each place that was handed
//! keeps where it stands among the handed ones.
#![tactic(auto)]

ghost use Rattle.played_growth.specs.Growth.{StepsGrow};

/// A step adds objects behind those that are there, and places behind those that were handed.
pub fn steps_only_add()
    ensures { StepsGrow }
{}
