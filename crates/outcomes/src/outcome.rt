//! What can be found in an app, and why nothing certain may be said of it.

use app_model::MethodRef;
use vet_base::Name;

/// An instruction: its method and its address there.
#[derive(Drop)]
pub struct Place {
    pub at: MethodRef,
    pub pc: u32,
}

/// A method by its class, its name and the text of its descriptor.
#[derive(Drop)]
pub struct MethodName {
    pub class: Name,
    pub name: Name,
    pub descriptor: Name,
}

/// Data of a source category may come to a sink category at a place. The declaration does not name the pair.
#[derive(Drop)]
pub struct Finding {
    pub source: Name,
    pub sink: Name,
    pub at: Place,
}

/// Why nothing certain can be said of an app.
#[derive(Drop)]
pub enum Cause {
    /// The lists say nothing of what is called here.
    NoSummary(Place),
    /// What is called here, or may come here, has no code.
    Native(Place),
    /// What is called here reflects.
    Reflective(Place),
    /// The manifest has a content provider, of this class.
    Provider(Name),
    /// A layout names this class of the app.
    LayoutClass(Name),
    /// More than so many rows follow.
    TooLarge(u32),
    /// This method has the name of one further up, which a device runs in its place.
    Hidden(MethodName),
    /// An interface of the app has this method with code.
    InterfaceCode(MethodName),
    /// A class of the app has this name of one of the platform.
    PlatformClass(Name),
    /// A class of the app is below this class, which neither the app nor the lists have.
    UnlistedClass(Name),
    /// A static field that no class of the app defines is written here, or read here and not listed.
    LibraryStatic(Place),
    /// A click may come to this method of what is no activity, or of a menu.
    Click(MethodName),
    /// The manifest says that this class of the app is named elsewhere.
    NamedClass(Name),
}
