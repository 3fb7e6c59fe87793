//! The rules of this crate, by their numbers in `docs/RULES.md`.

/// A body that is entered has the arguments.
pub const PASS: u8 = 24;

/// The caller has what is returned.
pub const HAND_BACK: u8 = 25;

/// It has what is thrown.
pub const THROW_ON: u8 = 26;

/// Registers have the effects of an initialiser that may run before the step.
pub const INITIALISED: u8 = 29;
