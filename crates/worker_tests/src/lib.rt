//! Tests of the board and of the workers by a rule set of one rule. They stand
//! apart from the crates that they test, which would be proved once more with them.
#![tactic(auto)]

#[cfg(test)]
mod of_worker_board;
#[cfg(test)]
mod of_worker_pool;
