//! The bodies of a DEX file's methods: their code units, their tries, and the handlers of these.
#![tactic(auto)]

mod code;
mod handlers;
mod tries;

pub use code::maybe_code_of;
