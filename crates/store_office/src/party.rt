use vet_base::Name;

/// What a party may do at the desk.
#[derive(Clone, Copy, Debug, PartialEq, Eq)]
pub enum Role {
    /// Submits apps and appeals.
    Developer,
    /// Decides, reviews and rules.
    Reviewer,
}

/// One who has a token for the desk.
#[derive(Drop)]
pub struct Party {
    pub name: Name,
    pub role: Role,
    pub token: Name,
}
