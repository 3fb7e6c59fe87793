ghost use Rattle.std.specs.Prelude.{◌≡◌, ◌<◌, ◌↔◌, IsSome, IsTrue, if◌then◌else◌, drop, length, slice_get};
ghost use Rattle.app_machine.specs.Library.{first_registers, positions};
ghost use Rattle.app_machine.specs.Names.{is_wide};
ghost use Rattle.app_machine.specs.Summaries.{position_count};

use crate::kinds::is_static_call;
use crate::types::is_wide;
use app_machine::{CallKind, MethodRef, Proto};
use vet_base::Name;

/// The first register of the position of a call with these argument registers: of its receiver, where
/// it has one, and then of each argument. A call has fewer positions than registers, or as many.
#[tactic(auto, unfolding(app_machine::specs::Library::positions))]
pub fn place_at(kind: CallKind, at: &MethodRef, args: &[u32], position: usize) -> Option<u32>
    ensures same { result ≡ slice_get (positions kind at.now args.now) position }
    ensures within { IsSome result → position < length args.now }
{
    let types = at.proto.params.as_slice();
    if is_static_call(kind) {
        return first_register(types, args, position);
    }
    match args.split_first() {
        None => None,
        Some((receiver, rest)) => {
            if position == 0 {
                Some(*receiver)
            } else {
                first_register(types, rest, position - 1)
            }
        }
    }
}

/// The first register of the argument, where values of these types stand in the registers.
#[tactic(auto, using(crate::proofs::Positions::passes_none, crate::proofs::Positions::here, crate::proofs::Positions::further, crate::proofs::Positions::no_more_registers, crate::proofs::Positions::no_more_types))]
fn first_register(types: &[Name], registers: &[u32], position: usize) -> Option<u32>
    ensures { result ≡ slice_get (first_registers types.now registers.now) position }
{
    let mut left = registers;
    let mut before = position;
    for kind in types {
        match left.split_first() {
            None => return None,
            Some((first, rest)) => {
                if before == 0 {
                    return Some(*first);
                }
                left = behind(kind, rest);
                before -= 1;
            }
        }
    }
    None
}

/// What is left behind the first register of a value of the type.
fn behind<'a>(kind: &Name, registers: &'a [u32]) -> &'a [u32]
    ensures { result.now ≡ (if is_wide kind.now then drop 1 registers.now else registers.now) }
{
    if is_wide(kind) {
        without_first(registers)
    } else {
        registers
    }
}

fn without_first(registers: &[u32]) -> &[u32]
    ensures { result.now ≡ drop 1 registers.now }
{
    match registers.split_first() {
        Some((_, rest)) => rest,
        None => registers,
    }
}

/// Whether a call of a method of the prototype has the position: that of its receiver, where it is
/// not static, or of a parameter.
pub fn is_position(is_static: bool, proto: &Proto, position: usize) -> bool
    ensures { IsTrue result ↔ (position < position_count is_static proto.now) }
{
    if is_static {
        position < proto.params.len()
    } else {
        position <= proto.params.len()
    }
}
