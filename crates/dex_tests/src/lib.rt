//! Tests of DEX files that are made and read back, and of generated apps. They stand apart from the crates that they
//! test, which would be proved once more with them.
#![tactic(auto)]

#[cfg(test)]
mod of_dex_round_trip;
#[cfg(test)]
mod of_made_apps;
