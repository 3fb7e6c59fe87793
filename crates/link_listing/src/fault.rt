//! The faults of the files of an app.

use app_model::MethodRef;
use dex_code::CodeFault;
use vet_base::{Name, Stop};

/// What there is too much of.
#[derive(Clone, Copy)]
pub enum Limit {
    Classes,
    Methods,
    Fields,
    Units,
}

/// The first fault of the files of an app.
#[derive(Drop)]
pub enum Fault {
    /// A class of this name stands a second time.
    TwoClasses(Name),
    /// The class has this member a second time.
    TwoMembers(Name, Name),
    /// A component names this class, which is none of the app.
    NoClass(Name),
    /// This class is above itself, and no class before it in the order of names is.
    Circle(Name),
    /// The code of this method has this fault.
    Code(MethodRef, CodeFault),
    /// There is more of this than the limit.
    TooMany(Limit),
}

/// Why the link stops: want of memory, or the first fault.
pub type Halt = Stop<Fault>;
