ghost use Rattle.std.specs.Prelude.{◌≡◌};
ghost use Rattle.dex_code.specs.Insns.{is_payload, kind_of, opcode_of};

use dalvik_formats::Kind;
use vet_base::Seq;

/// An instruction or a payload, each variant of an instruction named as its format: first its opcode, then its
/// registers, and then its literal, index or target. A literal is the signed number that the units hold, a target a pc.
#[derive(Drop)]
pub enum Insn {
    F10x(u8),
    F12x(u8, u16, u16),
    F11n(u8, u16, i64),
    F11x(u8, u16),
    F10t(u8, u32),
    F20t(u8, u32),
    F22x(u8, u16, u16),
    F21t(u8, u16, u32),
    F21s(u8, u16, i64),
    F21h(u8, u16, i64),
    F21c(u8, u16, u32),
    F23x(u8, u16, u16, u16),
    F22b(u8, u16, u16, i64),
    F22t(u8, u16, u16, u32),
    F22s(u8, u16, u16, i64),
    F22c(u8, u16, u16, u32),
    F32x(u8, u16, u16),
    F30t(u8, u32),
    F31t(u8, u16, u32),
    F31i(u8, u16, i64),
    F31c(u8, u16, u32),
    /// Opcode, index, argument registers.
    F35c(u8, u32, Seq<u16>),
    /// Opcode, index, first argument register, number of arguments.
    F3rc(u8, u32, u16, u16),
    F51l(u8, u16, i64),
    /// The table of a `packed-switch`: its first key, and a distance in units for each key from there on. A distance
    /// counts from the switch.
    Packed(i32, Seq<i32>),
    /// The table of a `sparse-switch`: keys and distances.
    Sparse(Seq<(i32, i32)>),
    /// The data of a `fill-array-data`: bytes of an element, and number of elements.
    Filled(u16, u32),
}

impl Insn {
    /// The opcode; none for a payload.
    pub fn opcode(&self) -> Option<u8>
        ensures { result ≡ opcode_of self.now }
    {
        match self {
            Insn::F10x(op)
            | Insn::F12x(op, ..)
            | Insn::F11n(op, ..)
            | Insn::F11x(op, ..)
            | Insn::F10t(op, ..)
            | Insn::F20t(op, ..)
            | Insn::F22x(op, ..)
            | Insn::F21t(op, ..)
            | Insn::F21s(op, ..)
            | Insn::F21h(op, ..)
            | Insn::F21c(op, ..)
            | Insn::F23x(op, ..)
            | Insn::F22b(op, ..)
            | Insn::F22t(op, ..)
            | Insn::F22s(op, ..)
            | Insn::F22c(op, ..)
            | Insn::F32x(op, ..)
            | Insn::F30t(op, ..)
            | Insn::F31t(op, ..)
            | Insn::F31i(op, ..)
            | Insn::F31c(op, ..)
            | Insn::F35c(op, ..)
            | Insn::F3rc(op, ..)
            | Insn::F51l(op, ..) => Some(*op),
            Insn::Packed(..) | Insn::Sparse(..) | Insn::Filled(..) => None,
        }
    }

    /// What the instruction does; `NoInstruction` for a payload.
    pub fn kind(&self) -> Kind
        ensures { result ≡ kind_of self.now }
    {
        match self.opcode() {
            Some(op) => dalvik_formats::kind_of(op),
            None => Kind::NoInstruction,
        }
    }

    /// Whether it is a table or data, and no instruction.
    pub fn is_payload(&self) -> bool
        ensures { result ≡ is_payload self.now }
    {
        matches!(self, Insn::Packed(..) | Insn::Sparse(..) | Insn::Filled(..))
    }
}
