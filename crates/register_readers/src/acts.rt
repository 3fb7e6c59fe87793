//! The registers of an act: those from which it takes a value, and those to which it gives one.
ghost use Rattle.std.specs.Prelude.{◌≡◌};
ghost use Rattle.app_machine.specs.State.{holds};
ghost use Rattle.cell_rules.specs.Reading.{reads};
ghost use Rattle.register_readers.specs.Asked.{given_to};

use app_machine::Act;
use app_parts::RESULT;
use rule_ground::{EXCEPTION, is_among};
use std::slice::from_ref;

/// Whether the act takes a value from the register.
pub fn reads(act: &Act, register: u32) -> bool
    ensures { result ≡ holds (reads act.now) register }
{
    match act {
        Act::Join(_, sources) => is_among(sources.as_slice(), register),
        Act::Move(_, from) => register == *from,
        Act::New(_, _, Some(size)) => register == *size,
        Act::Fill(elements, _) => is_among(elements.as_slice(), register),
        Act::Get(_, from, _) => register == *from,
        Act::Put(object, _, from) => register == *object || register == *from,
        Act::PutStatic(_, from) => register == *from,
        Act::Call(_, _, arguments) => is_among(arguments.as_slice(), register),
        Act::Return(Some(from)) => register == *from,
        Act::Throw(from) => register == *from,
        Act::TakeResult(_) => register == RESULT,
        Act::TakeException(_) => register == EXCEPTION,
        _ => false,
    }
}

/// The registers to which the act gives a value of which rows tell.
pub fn given_to(act: &Act) -> &[u32]
    ensures { result.now ≡ given_to act.now }
{
    match act {
        Act::Join(targets, _)
        | Act::Move(targets, _)
        | Act::Get(targets, _, _)
        | Act::GetStatic(targets, _)
        | Act::TakeResult(targets) => targets.as_slice(),
        Act::New(target, _, _) | Act::TakeException(target) => from_ref(target),
        Act::Fill(_, _) | Act::Call(_, _, _) => &[RESULT],
        _ => &[],
    }
}
