//! Tests of names, paths, rows and their tables. They stand apart from the crates that they test, which would be proved
//! once more with them.
#![tactic(auto)]

#[cfg(test)]
mod of_access_path;
#[cfg(test)]
mod of_fact_rows;
#[cfg(test)]
mod of_hashed_rows;
#[cfg(test)]
mod of_rule_ground;
#[cfg(test)]
mod of_vet_base;
