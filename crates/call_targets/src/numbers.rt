//! The rules of this crate, by their numbers in `docs/RULES.md`.

/// A call enters its target.
pub const ENTER: u8 = 22;

/// A call enters the target for the class of its receiver.
pub const ENTER_BY_CLASS: u8 = 23;

/// A call comes to the library.
pub const USE_LIBRARY: u8 = 27;

/// An initialiser may run before a step.
pub const INITIALISE: u8 = 28;
