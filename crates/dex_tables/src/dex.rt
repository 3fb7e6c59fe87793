use vet_base::{Name, Seq, Shared};

/// What stands in a DEX file: its five id tables and its classes, each in the file's order.
///
/// An index of a string, type, proto, field or method is a row of the table of that name.
#[derive(Drop)]
pub struct Dex {
    /// The bytes of each string up to its first 0, in MUTF-8 as the file has them.
    pub strings: Seq<Name>,
    /// The string that describes each type.
    pub types: Seq<u32>,
    pub protos: Seq<ProtoId>,
    pub fields: Seq<FieldId>,
    pub methods: Seq<MethodRow>,
    pub classes: Seq<ClassDef>,
}

/// A prototype: the types of its result and of its parameters.
#[derive(Drop)]
pub struct ProtoId {
    pub ret: u32,
    pub params: Seq<u32>,
}

/// A row of `field_ids`: the types of its class and of its value, and the string that names it.
#[derive(Clone, Copy, Debug, PartialEq, Eq)]
pub struct FieldId {
    pub class: u32,
    pub kind: u32,
    pub name: u32,
}

/// A row of `method_ids`: the type of its class, its proto, and the string that names it.
#[derive(Clone, Copy, Debug, PartialEq, Eq)]
pub struct MethodRow {
    pub class: u32,
    pub proto: u32,
    pub name: u32,
}

/// A class with its class data. `class`, `superclass` and `interfaces` are types.
#[derive(Drop)]
pub struct ClassDef {
    pub class: u32,
    pub flags: u32,
    pub superclass: Option<u32>,
    pub interfaces: Seq<u32>,
    pub statics: Seq<Member>,
    pub instances: Seq<Member>,
    pub directs: Seq<Body>,
    pub virtuals: Seq<Body>,
}

/// A field of a class: its row of `field_ids` and its access flags.
#[derive(Clone, Copy, Debug, PartialEq, Eq)]
pub struct Member {
    pub index: u32,
    pub flags: u32,
}

/// A method of a class: its row of `method_ids`, its access flags, and its code where it has any.
#[derive(Drop)]
pub struct Body {
    pub index: u32,
    pub flags: u32,
    pub code: Option<RawCode>,
}

/// A code item: its numbers of registers, its code units of 16 bits, and its try items in their order.
#[derive(Drop)]
pub struct RawCode {
    pub registers: u16,
    pub ins: u16,
    pub outs: u16,
    pub units: Seq<u16>,
    pub tries: Shared<RawTry>,
}

/// A try item with the handler that it names: `count` units from `start` on, pairs of type and address of a unit, and
/// the address of the catch-all handler where there is one.
#[derive(Drop)]
pub struct RawTry {
    pub start: u32,
    pub count: u16,
    pub handlers: Shared<(u32, u32)>,
    pub catch_all: Option<u32>,
}
