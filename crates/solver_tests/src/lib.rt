//! Tests of the solver and the checker by a rule set of one rule. They stand apart
//! from the crates that they test, which would be proved once more with them.
#![tactic(auto)]

#[cfg(test)]
mod of_cert_checker;
#[cfg(test)]
mod of_taint_solver;
