//! The rules of this crate, by their numbers in `docs/RULES.md`.

/// One position is put into another.
pub const PUT: u8 = 37;

/// A position is stored into a shared object.
pub const STORE: u8 = 38;

/// What one position holds is copied to another.
pub const COPY: u8 = 39;
