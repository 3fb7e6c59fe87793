//! The developer's file `client.toml`: where the desk listens, with which token one asks it, and how often one tries.
#![tactic(auto)]

mod client;
mod fault;
mod fields;

pub use client::{Client, read_client};
