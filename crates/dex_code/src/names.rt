ghost use Rattle.std.specs.Prelude.{◌≡◌};
ghost use Rattle.dex_code.specs.Acts.{index_of, naming_of, naming_with};

use crate::insn::Insn;
use app_machine::MethodRef;
use dalvik_formats::Kind;
use vet_base::{KeyId, Name};

/// What an act needs the name of, by its index in the file's table of types, methods or fields.
#[derive(Clone, Copy, Debug, PartialEq, Eq)]
pub enum Naming {
    Nothing,
    Class(u32),
    Method(u32),
    InstanceField(u32),
    StaticField(u32),
}

/// What an act names, resolved.
#[derive(Drop)]
pub enum Named {
    Nothing,
    Class(Name),
    Method(MethodRef),
    Key(KeyId),
    Static(u32),
}

fn index_in(insn: &Insn) -> u32
    ensures { result ≡ index_of insn.now }
{
    match insn {
        Insn::F21c(_, _, i)
        | Insn::F22c(_, _, _, i)
        | Insn::F31c(_, _, i)
        | Insn::F35c(_, i, _)
        | Insn::F3rc(_, i, _, _) => *i,
        _ => 0,
    }
}

fn naming_by(kind: Kind, index: u32) -> Naming
    ensures { result ≡ naming_with kind index }
{
    match kind {
        Kind::NewInstance | Kind::NewArray | Kind::FilledNewArray => Naming::Class(index),
        Kind::InvokeVirtual
        | Kind::InvokeSuper
        | Kind::InvokeDirect
        | Kind::InvokeStatic
        | Kind::InvokeInterface => Naming::Method(index),
        Kind::InstanceGet | Kind::InstancePut => Naming::InstanceField(index),
        Kind::StaticGet | Kind::StaticPut => Naming::StaticField(index),
        _ => Naming::Nothing,
    }
}

impl Insn {
    /// What the instruction's act needs the name of.
    #[tactic(auto, unfolding(crate::specs::Acts::naming_of))]
    pub fn naming(&self) -> Naming
        ensures { result ≡ naming_of self.now }
    {
        naming_by(self.kind(), index_in(self))
    }
}
