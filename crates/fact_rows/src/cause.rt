//! Why what comes next may not be modelled, as a row tells it.

/// The lists say nothing of what is called.
pub const NO_SUMMARY: u8 = 1;

/// What is called, or may come, has no code.
pub const NATIVE: u8 = 2;

/// What is called reflects.
pub const REFLECTIVE: u8 = 3;
