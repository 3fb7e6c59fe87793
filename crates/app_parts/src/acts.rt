ghost use Rattle.std.specs.Prelude.{◌≡◌, map, option_map, option_to_list};
ghost use Rattle.std.specs.Option.{option_copied};
ghost use Rattle.app_machine.specs.Local.{writes};
ghost use Rattle.app_machine.specs.Lookups.{class_initialised, class_of_static};
ghost use Rattle.app_machine.specs.Sound.{keys_of, registers_of, statics_of};
ghost use Rattle.app_machine.specs.State.{holds};
ghost use Rattle.app_parts.specs.Acts.{key_number};

use app_machine::{Act, App, CallKind};
use vet_base::{KeyId, Name};

/// The register RES, which holds the result of the last call or filled array.
pub const RESULT: u32 = 65_536;

/// Whether the act writes the register: a destination, or RES for a call and a filled array.
pub fn writes(act: &Act, register: u32) -> bool
    ensures { result ≡ writes act.now register }
{
    match act {
        Act::Join(to, _)
        | Act::Move(to, _)
        | Act::Blank(to)
        | Act::Get(to, _, _)
        | Act::GetStatic(to, _)
        | Act::TakeResult(to) => holds(to.as_slice(), register),
        Act::New(to, _, _) | Act::TakeException(to) => register == *to,
        Act::Fill(_, _) | Act::Call(_, _, _) => register == RESULT,
        _ => false,
    }
}

/// Whether the act names the register, as a destination or a source.
#[tactic(auto, using(crate::proofs::Registers::holds_register))]
pub fn names_register(act: &Act, register: u32) -> bool
    ensures { result ≡ holds (registers_of act.now) register }
{
    match act {
        Act::Join(to, from) => holds(to.as_slice(), register) || holds(from.as_slice(), register),
        Act::Move(to, other) | Act::Get(to, other, _) => {
            register == *other || holds(to.as_slice(), register)
        }
        Act::Blank(all)
        | Act::Fill(all, _)
        | Act::GetStatic(all, _)
        | Act::Call(_, _, all)
        | Act::TakeResult(all) => holds(all.as_slice(), register),
        Act::Put(object, _, from) => register == *object || register == *from,
        Act::New(to, _, Some(size)) => register == *to || register == *size,
        Act::New(one, _, None)
        | Act::PutStatic(_, one)
        | Act::Throw(one)
        | Act::TakeException(one)
        | Act::Return(Some(one)) => register == *one,
        _ => false,
    }
}

/// Whether the register is one of these.
fn holds(registers: &[u32], register: u32) -> bool
    ensures { result ≡ holds registers.now register }
{
    registers.iter().any(|other| register == *other)
}

/// The key that the act gets or puts.
pub fn key_named(act: &Act) -> Option<KeyId>
    ensures { map key_number (option_to_list result) ≡ keys_of act.now }
{
    match act {
        Act::Get(_, _, key) | Act::Put(_, key, _) => Some(*key),
        _ => None,
    }
}

/// The number of the static that the act gets or puts.
pub fn static_named(act: &Act) -> Option<u32>
    ensures { option_to_list result ≡ statics_of act.now }
{
    match act {
        Act::GetStatic(_, number) | Act::PutStatic(number, _) => Some(*number),
        _ => None,
    }
}

/// The class that the act initialises: that of a new object, of a static field or of a static method.
#[tactic(auto, unfolding(app_machine::specs::Lookups::class_initialised))]
pub fn class_initialised<'a>(app: &'a App, act: &'a Act) -> Option<&'a Name>
    ensures { option_copied result ≡ class_initialised app.now act.now }
{
    match act {
        Act::New(_, class, _) => Some(class),
        Act::GetStatic(_, number) | Act::PutStatic(number, _) => class_of_static(app, *number),
        Act::Call(CallKind::Static, at, _) => Some(&at.class),
        _ => None,
    }
}

/// The class of the static of this number.
fn class_of_static(app: &App, number: u32) -> Option<&Name>
    ensures { option_copied result ≡ class_of_static app.now number }
{
    match app.statics.get(number as usize) {
        Some(field) => Some(&field.0),
        None => None,
    }
}
