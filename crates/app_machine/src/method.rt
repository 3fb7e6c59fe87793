use crate::{CallKind, MethodRef};
use vet_base::{KeyId, Name, Seq, Shared};

/// What one instruction does, in registers of its method. A wide value stands in two neighbouring
/// registers: the first is read and both are written.
#[derive(Drop)]
pub enum Act {
    /// Nothing.
    Skip,
    /// Destinations, sources: a value without a place that has the sources' own labels.
    Join(Seq<u32>, Seq<u32>),
    /// Destinations, source.
    Move(Seq<u32>, u32),
    /// Destinations, which get a blank.
    Blank(Seq<u32>),
    /// Destination, class of the new object, register of the size where it is an array.
    New(u32, Name, Option<u32>),
    /// Elements, class of the new array. The array is the result.
    Fill(Seq<u32>, Name),
    /// Destinations, object, key.
    Get(Seq<u32>, u32, KeyId),
    /// Object, key, source.
    Put(u32, KeyId, u32),
    /// Destinations, number of the static.
    GetStatic(Seq<u32>, u32),
    /// Number of the static, source.
    PutStatic(u32, u32),
    /// Kind, method, argument registers.
    Call(CallKind, MethodRef, Seq<u32>),
    /// The register that is returned, where there is one.
    Return(Option<u32>),
    /// The register that is thrown.
    Throw(u32),
    /// Destinations, which get the result of the last call or filled array.
    TakeResult(Seq<u32>),
    /// Destination, which gets the exception.
    TakeException(u32),
    /// A branch or a switch, which does nothing beside.
    Go,
}

/// An instruction: its address in code units, its act, where control goes next, and the handlers
/// that cover it.
#[derive(Drop)]
pub struct Step {
    pub pc: u32,
    pub act: Act,
    /// Each once, ascending.
    pub next: Seq<u32>,
    /// Each once, ascending.
    pub catches: Shared<u32>,
}

/// A method of the app with code, or a native one. A native method has no steps, registers and ins.
#[derive(Drop)]
pub struct Method {
    pub at: MethodRef,
    pub is_static: bool,
    pub is_native: bool,
    pub registers: u32,
    /// How many of the last registers hold the arguments.
    pub ins: u32,
    /// By ascending pc.
    pub steps: Seq<Step>,
}
