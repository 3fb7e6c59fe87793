ghost use Rattle.std.specs.Prelude.{◌≡◌, ◌<◌, [], ◌∷◌, IfOk, IsTrue, length};
ghost use Rattle.dex_code.specs.Insns.{kind_of, opcode_of};
ghost use Rattle.dex_code.specs.Acts.{act_of, act_with, arguments_of, begins_wide, call_kind_of};
ghost use Rattle.dex_code.specs.Acts.{class_act, field_act, naming_of, operands_of, plain_act};
ghost use Rattle.dex_code.specs.Acts.{range_of, static_act, suits, wide_with, written};

use crate::insn::Insn;
use crate::names::Named;
use app_machine::{Act, CallKind};
use dalvik_formats::{Kind, Pairs, pairs_of};
use std::alloc::{AllocError, Global};
use vet_base::{KeyId, Memory, Name, Seq};

/// The first three registers that an instruction names, 0 where there are fewer.
fn operands(insn: &Insn) -> (u32, u32, u32)
    ensures value { result ≡ operands_of insn.now }
    ensures small { result.0 < 65536 }
{
    match insn {
        Insn::F11x(_, a)
        | Insn::F11n(_, a, _)
        | Insn::F21s(_, a, _)
        | Insn::F21h(_, a, _)
        | Insn::F31i(_, a, _)
        | Insn::F51l(_, a, _)
        | Insn::F21t(_, a, _)
        | Insn::F21c(_, a, _)
        | Insn::F31t(_, a, _)
        | Insn::F31c(_, a, _) => (u32::from(*a), 0, 0),
        Insn::F12x(_, a, b)
        | Insn::F22x(_, a, b)
        | Insn::F32x(_, a, b)
        | Insn::F22b(_, a, b, _)
        | Insn::F22s(_, a, b, _)
        | Insn::F22t(_, a, b, _)
        | Insn::F22c(_, a, b, _) => (u32::from(*a), u32::from(*b), 0),
        Insn::F23x(_, a, b, c) => (u32::from(*a), u32::from(*b), u32::from(*c)),
        _ => (0, 0, 0),
    }
}

fn is_wide(pairs: Pairs) -> bool
    ensures { result ≡ begins_wide pairs }
{
    matches!(pairs, Pairs::First | Pairs::FirstTwo | Pairs::All)
}

/// Whether the first operand is a pair of registers.
fn has_wide_first(opcode: Option<u8>) -> bool
    ensures { result ≡ wide_with opcode }
{
    match opcode {
        Some(op) => is_wide(pairs_of(op)),
        None => false,
    }
}

fn one(alloc: Global, register: u32) -> Result<Seq<u32>, AllocError>
    ensures { IfOk result (λ s. s ≡ register ∷ []) }
{
    Ok(Seq::from_vec(vec![in alloc; register]?))
}

fn two(alloc: Global, first: u32, second: u32) -> Result<Seq<u32>, AllocError>
    ensures { IfOk result (λ s. s ≡ first ∷ second ∷ []) }
{
    Ok(Seq::from_vec(vec![in alloc; first, second]?))
}

/// The registers that an instruction writes.
fn written_to(alloc: Global, wide: bool, first: u32) -> Result<Seq<u32>, AllocError>
    requires { first < 65536 }
    ensures { IfOk result (λ s. s ≡ written wide first) }
{
    if wide {
        two(alloc, first, first + 1)
    } else {
        one(alloc, first)
    }
}

/// So many neighbouring registers.
fn range_from(alloc: Global, first: u16, count: u16) -> Result<Vec<u32>, AllocError>
    ensures { IfOk result (λ v. v.items ≡ range_of first count) }
{
    let mut registers = Vec::new(alloc);
    for i in 0..count {
        registers.push(u32::from(first) + u32::from(i))?;
    }
    Ok(registers)
}

/// The arguments of a call, or the elements of a new array.
fn arguments(alloc: Global, insn: &Insn) -> Result<Seq<u32>, AllocError>
    ensures { IfOk result (λ s. s ≡ arguments_of insn.now) }
{
    match insn {
        Insn::F35c(_, _, registers) => {
            let wide = registers.as_slice().iter().map(|r| u32::from(*r));
            Ok(Seq::from_vec(wide.collect(alloc)?))
        }
        Insn::F3rc(_, _, first, count) => Ok(Seq::from_vec(range_from(alloc, *first, *count)?)),
        _ => Ok(Seq::new(alloc)),
    }
}

/// The act of one that makes a value of one register.
fn join_of_one(alloc: Global, wide: bool, to: u32, from: u32) -> Result<Act, AllocError>
    requires { to < 65536 }
    ensures { IfOk result (λ a. a ≡ Act.Join (written wide to) (from ∷ [])) }
{
    let to = written_to(alloc, wide, to)?;
    let from = one(alloc, from)?;
    Ok(Act::Join(to, from))
}

/// The act of one that makes a value of two.
fn join_of_two(
    alloc: Global,
    wide: bool,
    to: u32,
    first: u32,
    second: u32,
) -> Result<Act, AllocError>
    requires { to < 65536 }
    ensures { IfOk result (λ a. a ≡ Act.Join (written wide to) (first ∷ second ∷ [])) }
{
    let to = written_to(alloc, wide, to)?;
    let from = two(alloc, first, second)?;
    Ok(Act::Join(to, from))
}

/// The act of an instruction without a name.
fn plain(alloc: Global, kind: Kind, wide: bool, r: (u32, u32, u32)) -> Result<Act, AllocError>
    requires { r.0 < 65536 }
    ensures { IfOk result (λ a. a ≡ plain_act kind wide r) }
{
    match kind {
        Kind::Move => Ok(Act::Move(written_to(alloc, wide, r.0)?, r.1)),
        Kind::MoveResult => Ok(Act::TakeResult(written_to(alloc, wide, r.0)?)),
        Kind::MoveException => Ok(Act::TakeException(r.0)),
        Kind::ReturnVoid => Ok(Act::Return(None)),
        Kind::Return => Ok(Act::Return(Some(r.0))),
        Kind::Const => Ok(Act::Blank(written_to(alloc, wide, r.0)?)),
        Kind::InstanceOf => Ok(Act::Blank(one(alloc, r.0)?)),
        Kind::ArrayLength => join_of_one(alloc, false, r.0, r.1),
        Kind::Throw => Ok(Act::Throw(r.0)),
        Kind::Goto | Kind::PackedSwitch | Kind::SparseSwitch | Kind::If => Ok(Act::Go),
        Kind::Compare => join_of_two(alloc, false, r.0, r.1, r.2),
        Kind::ArrayGet => Ok(Act::Get(written_to(alloc, wide, r.0)?, r.1, KeyId(0))),
        Kind::ArrayPut => Ok(Act::Put(r.1, KeyId(0), r.0)),
        Kind::Unary => join_of_one(alloc, wide, r.0, r.1),
        Kind::Binary => join_of_two(alloc, wide, r.0, r.1, r.2),
        Kind::BinaryInPlace => join_of_two(alloc, wide, r.0, r.0, r.1),
        Kind::BinaryLiteral => join_of_one(alloc, false, r.0, r.1),
        _ => Ok(Act::Skip),
    }
}

/// The act of one that makes an object or an array.
fn of_class(kind: Kind, r: (u32, u32, u32), elements: Seq<u32>, class: Name) -> Act
    ensures { result ≡ class_act kind r elements class }
{
    match kind {
        Kind::NewInstance => Act::New(r.0, class, None),
        Kind::NewArray => Act::New(r.0, class, Some(r.1)),
        Kind::FilledNewArray => Act::Fill(elements, class),
        _ => Act::Skip,
    }
}

/// The act of one on an instance field.
fn of_field(
    alloc: Global,
    kind: Kind,
    wide: bool,
    r: (u32, u32, u32),
    key: KeyId,
) -> Result<Act, AllocError>
    requires { r.0 < 65536 }
    ensures { IfOk result (λ a. a ≡ field_act kind wide r key) }
{
    Ok(match kind {
        Kind::InstanceGet => Act::Get(written_to(alloc, wide, r.0)?, r.1, key),
        Kind::InstancePut => Act::Put(r.1, key, r.0),
        _ => Act::Skip,
    })
}

/// The act of one on a static field.
fn of_static(
    alloc: Global,
    kind: Kind,
    wide: bool,
    first: u32,
    field: u32,
) -> Result<Act, AllocError>
    requires { first < 65536 }
    ensures { IfOk result (λ a. a ≡ static_act kind wide first field) }
{
    Ok(match kind {
        Kind::StaticGet => Act::GetStatic(written_to(alloc, wide, first)?, field),
        Kind::StaticPut => Act::PutStatic(field, first),
        _ => Act::Skip,
    })
}

fn call_kind(kind: Kind) -> CallKind
    ensures { result ≡ call_kind_of kind }
{
    match kind {
        Kind::InvokeSuper => CallKind::Super,
        Kind::InvokeDirect => CallKind::Direct,
        Kind::InvokeStatic => CallKind::Static,
        Kind::InvokeInterface => CallKind::Interface,
        _ => CallKind::Virtual,
    }
}

impl Insn {
    /// How many arguments a call has, or how many elements a new array.
    #[tactic(auto, using(crate::proofs::Payloads::range_length))]
    pub fn argument_count(&self) -> usize
        ensures { result ≡ length (arguments_of self.now) }
    {
        match self {
            Insn::F35c(_, _, registers) => registers.len(),
            Insn::F3rc(_, _, _, count) => usize::from(*count),
            _ => 0,
        }
    }

    /// How a call finds its method.
    pub fn call_kind(&self) -> CallKind
        ensures { result ≡ call_kind_of (kind_of self.now) }
    {
        call_kind(self.kind())
    }
}

/// What an instruction does, in registers of its method, with what it names: the name that `naming` asks for.
#[tactic(auto, unfolding(crate::specs::Acts::act_of))]
pub fn act_for(alloc: Global, insn: &Insn, named: Named) -> Result<Act, Memory>
    requires { IsTrue (suits (naming_of insn.now) named) }
    ensures { IfOk result (λ a. a ≡ act_of insn.now named) }
{
    let kind = insn.kind();
    let wide = has_wide_first(insn.opcode());
    let r = operands(insn);
    Ok(match named {
        Named::Nothing => plain(alloc, kind, wide, r)?,
        Named::Class(class) => of_class(kind, r, arguments(alloc, insn)?, class),
        Named::Method(at) => Act::Call(call_kind(kind), at, arguments(alloc, insn)?),
        Named::Key(key) => of_field(alloc, kind, wide, r, key)?,
        Named::Static(field) => of_static(alloc, kind, wide, r.0, field)?,
    })
}
