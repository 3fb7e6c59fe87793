//! Tests of the index of readers over a generated app. They stand apart from the crate that they test, which would be
//! proved once more with them.
#![tactic(auto)]

#[cfg(test)]
mod of_made_apps;
