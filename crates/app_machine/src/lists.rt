use crate::{Proto, Summary};
use vet_base::{Name, Seq};

/// What every method of a class does that has no row of its own.
#[derive(Clone, Copy, Debug, PartialEq, Eq)]
pub enum FallbackWord {
    /// The result is blank.
    Blank,
    /// The result is joined from all positions.
    Joined,
    /// As `Joined`, and the receiver takes every argument in.
    Mixed,
}

/// A class of the library.
#[derive(Drop)]
pub struct LibClass {
    pub name: Name,
    /// The class itself first, and then the classes above it, each once.
    pub above: Seq<Name>,
    pub fallback: Option<FallbackWord>,
}

/// What a library call does: the method row of that number, or the default of the class of that number.
#[derive(Clone, Copy, Debug, PartialEq, Eq, PartialOrd, Ord, Hash)]
pub enum SummaryId {
    Row(u32),
    Fallback(u32),
}

/// A method that the system calls on an object of the class.
#[derive(Drop)]
pub struct Callback {
    pub class: Name,
    pub name: Name,
    pub proto: Proto,
    /// Positions, the receiver being 0, and the categories with which their values come labelled.
    pub sources: Seq<(u32, u8)>,
}

/// A static field of a library class. Reading it gives its value, which no one listed writes.
#[derive(Debug, Drop)]
pub struct StaticRow {
    pub class: Name,
    pub name: Name,
    /// The descriptor of its type.
    pub kind: Name,
    /// The category with which its value is labelled.
    pub source: Option<u8>,
}

/// What the office says of the library.
#[derive(Drop)]
pub struct Lists {
    /// How many rows may be derivable.
    pub rows: u32,
    pub categories: Seq<Name>,
    pub classes: Seq<LibClass>,
    /// The name and the class of each shared object.
    pub shared: Seq<(Name, Name)>,
    pub methods: Seq<Summary>,
    pub callbacks: Seq<Callback>,
    pub statics: Seq<StaticRow>,
}
