//! The rule of this crate, by its number in `docs/RULES.md`.

/// The library gives back an object that it has.
pub const GIVEN_BACK: u8 = 48;
