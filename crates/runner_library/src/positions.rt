ghost use Rattle.std.specs.Prelude.{◌≡◌, IfOk, map};
ghost use Rattle.app_machine.specs.Library.{positions};
ghost use Rattle.app_machine.specs.State.{value_or_blank};
ghost use Rattle.runner_state.specs.Shown.{register_in, value_of};

use app_machine::{CallKind, MethodRef};
use app_parts::place_at;
use runner_state::{Held, Registers, held_or_blank};
use std::alloc::Global;
use vet_base::Memory;

/// The values of the positions of a call with these argument registers.
pub fn values(
    alloc: Global,
    registers: &Registers,
    kind: CallKind,
    at: &MethodRef,
    args: &[u32],
) -> Result<Vec<Held>, Memory>
    ensures { IfOk result (λ values. map value_of values.items
        ≡ map (register_in registers.now) (positions kind at.now args.now)) }
{
    let mut values = Vec::new(alloc);
    while let Some(register) = place_at(kind, at, args, values.len()) {
        values.push(registers.get(register))?;
    }
    Ok(values)
}

/// The value of the position, and a blank where there is none.
pub fn value_at(values: &[Held], position: usize) -> Held
    ensures { value_of result ≡ value_or_blank (map value_of values.now) position }
{
    held_or_blank(values.get(position))
}
