//! Tests of the door, the clock and the caller of the system. They stand apart from the crates that they test,
//! which would be proved once more with them.
#![tactic(auto)]

#[cfg(test)]
mod of_both_ends;
#[cfg(test)]
mod of_desk_host;
