use vet_base::{Name, Shared};

/// The parameters and the result of a method, each the descriptor of a type.
#[derive(Drop)]
pub struct Proto {
    pub params: Shared<Name>,
    /// `V` where there is none.
    pub ret: Name,
}

/// A method as an instruction names it.
#[derive(Drop)]
pub struct MethodRef {
    pub class: Name,
    pub name: Name,
    pub proto: Proto,
}

/// The five ways in which Dalvik bytecode calls a method.
#[derive(Clone, Copy, Debug, PartialEq, Eq)]
pub enum CallKind {
    Virtual,
    Super,
    Direct,
    Static,
    Interface,
}
