//! The rules of this crate, by their numbers in `docs/RULES.md`.

/// A label arrives at a sink.
pub const ARRIVE: u8 = 31;

/// The result is that of a position.
pub const SAME: u8 = 32;

/// The result is taken from an object at a position.
pub const TAKE: u8 = 33;

/// The joined result is an object of its own.
pub const MAKE: u8 = 34;

/// The result has the labels of positions, or of a source.
pub const JOIN: u8 = 35;

/// The result is a shared object.
pub const SHARE: u8 = 36;
