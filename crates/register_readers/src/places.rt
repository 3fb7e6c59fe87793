//! Where readers are asked for.

/// A register of a method, as it stands at an address there.
#[derive(Clone, Copy, Drop, PartialEq, Eq, PartialOrd, Ord)]
pub struct Place {
    pub register: u32,
    pub pc: u32,
}
