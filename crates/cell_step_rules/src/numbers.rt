//! The rules of this crate, by their numbers in `docs/RULES.md`.

/// A move, and what takes the result or the exception.
pub const MOVE: u8 = 3;

/// A join.
pub const JOIN: u8 = 4;

/// A new object or array.
pub const MAKE: u8 = 5;

/// The values of a filled array.
pub const FILL: u8 = 6;

/// A get from an object.
pub const GET: u8 = 7;

/// A put into an object.
pub const PUT: u8 = 8;

/// A get from a static.
pub const GET_STATIC: u8 = 9;

/// A put into a static.
pub const PUT_STATIC: u8 = 10;

/// A throw.
pub const THROW: u8 = 11;

/// A return.
pub const RETURN: u8 = 12;

/// What is reached from an object.
pub const HOLDS: u8 = 14;
