use vet_base::{Name, Seq};

/// The kind of a component as the manifest names it.
#[derive(Clone, Copy, Debug, PartialEq, Eq)]
pub enum Word {
    Activity,
    Service,
    Receiver,
    Provider,
}

/// What the manifest says of an app.
#[derive(Drop)]
pub struct Manifest {
    pub package: Name,
    pub dex_files: u32,
    /// The class of the application object.
    pub application: Option<Name>,
    pub components: Seq<(Word, Name)>,
}

/// What the layouts say of an app.
#[derive(Drop)]
pub struct Layouts {
    /// The names of click methods, each once.
    pub clicks: Seq<Name>,
    pub classes: Seq<Name>,
}

/// The flows that a developer declares: the name of a source category and of a sink category.
#[derive(Drop)]
pub struct Declaration {
    pub pairs: Seq<(Name, Name)>,
}
