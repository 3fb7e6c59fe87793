//! What the lists say of a device beside what the machine is told: whether they are strict, and names of the platform.
#![tactic(auto)]

use vet_base::{Name, Seq};

/// What the lists say of a device.
#[derive(Drop)]
pub struct DeviceLists {
    /// Whether it is told where a device may do more than the machine.
    pub strict: bool,
    /// How the names of the platform's classes begin, and within them those of classes that an app brings along: the
    /// longest beginning that fits decides. None stands twice, and none in both.
    pub platform: Seq<Name>,
    pub bundled: Seq<Name>,
}
