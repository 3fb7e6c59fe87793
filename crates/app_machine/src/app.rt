use crate::{Component, Method, Proto};
use vet_base::{Name, Seq, Shared};

/// A key under which an object keeps values: all elements, or an instance field by class, name and type.
#[derive(Drop)]
pub enum Key {
    Elem,
    Field(Name, Name, Name),
}

/// A class or interface of the app.
#[derive(Drop)]
pub struct Class {
    pub name: Name,
    pub superclass: Option<Name>,
    pub interfaces: Shared<Name>,
    pub is_interface: bool,
    /// The nearest classes above it that are not of the app, each once.
    pub outer: Shared<Name>,
    /// Its methods with neither code nor the native flag.
    pub bare: Seq<(Name, Proto)>,
}

/// A linked app.
#[derive(Drop)]
pub struct App {
    /// By name.
    pub classes: Seq<Class>,
    /// Those with code and the native ones, by class, name and descriptor.
    pub methods: Seq<Method>,
    /// `Elem`, and then the instance fields by class, name and type.
    pub keys: Seq<Key>,
    /// Each static field that an instruction names, resolved, by class, name and type.
    pub statics: Seq<(Name, Name, Name)>,
    /// The application first, where there is one, and then in the order of the manifest.
    pub components: Seq<Component>,
    /// The names of click methods over all layouts, each once.
    pub clicks: Seq<Name>,
    pub providers: Seq<Name>,
    /// The classes that layouts name.
    pub layout_classes: Seq<Name>,
}
