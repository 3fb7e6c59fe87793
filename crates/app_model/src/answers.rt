use vet_base::Name;

/// What a call comes to.
#[derive(Clone, Copy)]
pub enum Target<'a> {
    /// The number of a method of the app.
    Body(u32),
    /// A class of the library.
    Library(&'a Name),
    /// The call can only raise.
    Nothing,
}

/// An event in the life of a component: it comes in the state `from` and leads to the state `to`.
#[derive(Clone, Copy)]
pub struct EventRow {
    pub from: u8,
    /// The method that runs.
    pub name: &'static str,
    /// Its descriptor.
    pub proto: &'static str,
    pub to: u8,
}
