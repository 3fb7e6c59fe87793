//! The rules of this crate, by their numbers in `docs/RULES.md`.

/// The events of a component begin their bodies on it.
pub const OWN_EVENT: u8 = 40;

/// Callbacks and clicks come to a component that is there.
pub const PRESENT: u8 = 42;

/// Callbacks come to what is handed.
pub const HANDED: u8 = 43;

/// Events are given what was handed.
pub const GIVEN_BACK: u8 = 45;
