use vet_base::Name;

/// An event that may come.
#[derive(Clone, Copy)]
pub enum Choice<'a> {
    /// The component of this number comes to life, as an object of the class: the state behind the event, and the
    /// body that runs, where there is one.
    Born(u32, &'a Name, u8, Option<u32>),
    /// The component of this number goes on in its life: the state behind the event, and the body that runs.
    Lives(u32, u8, Option<u32>),
    /// The object at the place, where there is one, is called back or clicked: the positions whose values come
    /// labelled, and the body that runs.
    Called(Option<u32>, &'a [(u32, u8)], u32),
    /// The initialiser runs.
    Initialises(u32),
}

/// What is met at an index: an event, or how far behind the last one the index is.
#[derive(Clone, Copy)]
pub enum Met<'a> {
    Here(Choice<'a>),
    Past(usize),
}
