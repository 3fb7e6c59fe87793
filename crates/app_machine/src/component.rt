use vet_base::Name;

/// The kinds of component that have a life cycle here.
#[derive(Clone, Copy, Debug, PartialEq, Eq)]
pub enum Kind {
    Application,
    Activity,
    Service,
    Receiver,
}

/// A component of the manifest.
#[derive(Drop)]
pub struct Component {
    pub kind: Kind,
    pub class: Name,
}
