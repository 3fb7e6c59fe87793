//! Tests of disks, of logs in them, of changes as bytes, and of a journal whose disk is crashed, torn and broken. They
//! stand apart from the crates that they test, which would be proved once more with them.
#![tactic(auto)]

#[cfg(test)]
mod day;
#[cfg(test)]
mod of_case_records;
#[cfg(test)]
mod of_crashes;
#[cfg(test)]
mod of_disks;
#[cfg(test)]
mod of_gated_log;
#[cfg(test)]
mod of_journals;
#[cfg(test)]
mod quiet;
