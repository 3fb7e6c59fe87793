//! The rules of this crate, by their numbers in `docs/RULES.md`.

/// A call enters the target for the class of its receiver.
pub const ENTER_BY_CLASS: u8 = 23;

/// A call passes its arguments.
pub const PASS: u8 = 24;

/// What is returned is the result behind the call.
pub const HAND_BACK: u8 = 25;

/// What is thrown is caught, or thrown on.
pub const THROW_ON: u8 = 26;
