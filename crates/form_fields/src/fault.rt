use crate::{Key, Section};
use vet_base::Name;

/// The test that a form fails.
#[derive(Drop)]
pub enum Fault {
    NotToml,
    Missing(Section, Key),
    Wrong(Section, Key),
    /// A key that tables of this section do not have.
    Unknown(Section, Name),
    Range(Section, Key),
    Twice(Name),
}
