use crate::Proto;
use vet_base::{Name, Seq};

/// The result of a library method. Positions count arguments, a wide one once, with the receiver as 0.
#[derive(Drop)]
pub enum Gives {
    /// A value without place and labels.
    Blank,
    /// The value of a position.
    Same(u32),
    /// An element of the object of a position.
    Taken(u32),
    /// A new value with the labels that these positions reach.
    Joined(Seq<u32>),
    /// The shared object of that number.
    Shared(u32),
    /// An object that the library was handed, or a component that is there.
    Handed,
}

/// What the lists say of a library method. Categories and shared objects stand by their number.
#[derive(Drop)]
pub struct Summary {
    pub class: Name,
    pub name: Name,
    pub proto: Proto,
    pub is_static: bool,
    pub gives: Gives,
    /// The value of the first position becomes an element of the object of the second.
    pub puts: Seq<(u32, u32)>,
    /// The value of the position becomes an element of the shared object.
    pub stores: Seq<(u32, u32)>,
    /// The elements of the first position's object become elements of the second's.
    pub copies: Seq<(u32, u32)>,
    /// The category with which the result is labelled.
    pub source: Option<u8>,
    /// The category of the sink, and the positions at which values come to it.
    pub sink: Option<(u8, Seq<u32>)>,
    /// Whether what the method does cannot be told from the call.
    pub reflective: bool,
}
