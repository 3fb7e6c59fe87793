use vet_base::{Name, Seq};

/// The classes of a DEX file, each with its members and its code as instructions that name what they use.
///
/// No name may hold a 0 byte.
#[derive(Drop)]
pub struct Listing {
    pub classes: Seq<ListedClass>,
}

/// A class; `name`, `superclass` and `interfaces` are type descriptors, as `La/Main;`.
#[derive(Drop)]
pub struct ListedClass {
    pub name: Name,
    /// Access flags, as in a class_def_item.
    pub flags: u32,
    pub superclass: Option<Name>,
    pub interfaces: Seq<Name>,
    pub fields: Seq<ListedField>,
    pub methods: Seq<ListedMethod>,
}

/// A field; it is static where its flags have 0x8.
#[derive(Drop)]
pub struct ListedField {
    pub name: Name,
    /// The descriptor of its type.
    pub kind: Name,
    pub flags: u32,
}

/// A method; it is direct where its flags have 0x8 (static) or
/// 0x2 (private) or its name begins with `<`, otherwise virtual.
#[derive(Drop)]
pub struct ListedMethod {
    pub name: Name,
    /// The descriptors of its parameters' types.
    pub params: Seq<Name>,
    pub ret: Name,
    pub flags: u32,
    pub code: Option<ListedCode>,
}

/// A method's code; its lines are numbered from 0.
#[derive(Drop)]
pub struct ListedCode {
    pub registers: u16,
    pub ins: u16,
    pub lines: Seq<ListedLine>,
    pub tries: Seq<ListedTry>,
}

/// The lines from `start` up to `end`, which is not of them, with pairs of an exception's type and the line that
/// handles it, and the line that handles any exception.
#[derive(Drop)]
pub struct ListedTry {
    pub start: u32,
    pub end: u32,
    pub handlers: Seq<(Name, u32)>,
    pub catch_all: Option<u32>,
}

/// An instruction or a payload.
#[derive(Drop)]
pub enum ListedLine {
    /// The opcode, the registers in the order of the format, the literal as the units hold it, what the index names,
    /// and the line of the target. A part that the format does not have is empty, `Nothing`, `None` or 0. A line of
    /// format 3rc has its first register and the count in place of the registers.
    Plain(u8, Seq<u16>, i64, Operand, Option<u32>),
    /// A packed-switch payload: the line of its switch, the first key, and the lines of the targets.
    Packed(u32, i32, Seq<u32>),
    /// A sparse-switch payload: the line of its switch, and pairs of a key and the line of its target.
    Sparse(u32, Seq<(i32, u32)>),
    /// A fill-array-data payload: the number of bytes of an element, and the bytes.
    Filled(u16, Seq<u8>),
}

/// What an instruction's index names.
#[derive(Drop)]
pub enum Operand {
    Nothing,
    Text(Name),
    Class(Name),
    /// Class, name and type.
    Field(Name, Name, Name),
    /// Class, name, types of the parameters, and type of the result.
    Method(Name, Name, Seq<Name>, Name),
}
