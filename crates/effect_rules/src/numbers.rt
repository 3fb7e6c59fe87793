//! The rules of this crate, by their numbers in `docs/RULES.md`.

/// What holds the object is affected.
pub const TO_HOLDER: u8 = 14;

/// So are the registers that hold it behind the step.
pub const TO_REGISTER: u8 = 15;

/// The activation has the effect of its step.
pub const OF_METHOD: u8 = 16;

/// Who entered the activation has its effect.
pub const TO_CALLER: u8 = 17;

/// The statics that hold the object are affected.
pub const TO_STATIC: u8 = 18;

/// So is what is handed.
pub const TO_HANDED: u8 = 19;

/// An event of the component's own life affects it in the state to which it leads.
pub const BY_OWN_EVENT: u8 = 20;

/// Any other event affects it in the state in which it is.
pub const BY_OTHER_EVENT: u8 = 21;
