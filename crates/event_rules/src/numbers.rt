//! The rules of this crate, by their numbers in `docs/RULES.md`.

/// The events of a component lead from state to state.
pub const OWN_EVENT: u8 = 40;

/// Its labels go with them.
pub const OWN_EVENT_LABEL: u8 = 41;

/// Callbacks and clicks come to a component that is there.
pub const PRESENT: u8 = 42;

/// Callbacks come to what is handed.
pub const HANDED: u8 = 43;

/// The initialisers of a component run before it is there.
pub const ABSENT: u8 = 44;

/// Events are given what was handed.
pub const GIVEN_BACK: u8 = 45;

/// What an event returns is handed.
pub const RETURNED: u8 = 46;

/// Other components are there once the application is.
pub const APPLICATION: u8 = 47;
