ghost use Rattle.std.specs.Prelude.{◌≡◌, slice_get};
ghost use Rattle.std.specs.Option.{option_copied};
ghost use Rattle.app_machine.specs.Events.{layout, parameter_type};

use crate::types::width;
use vet_base::Name;

/// The position of the argument register of this index in a body that an event runs, whose
/// parameters have these types: the receiver has 0, and a wide parameter has two registers.
#[tactic(auto, using(crate::proofs::Layouts::found, crate::proofs::Layouts::goes_on, crate::proofs::Layouts::ends))]
pub fn position_at(params: &[Name], index: u32) -> Option<u32>
    ensures { result ≡ slice_get (layout params.now) index }
{
    if index == 0 {
        return Some(0);
    }
    let mut left = index - 1;
    let mut position = 1u32;
    for kind in params {
        let width = width(kind);
        if left < width {
            return Some(position);
        }
        left -= width;
        position += 1;
    }
    None
}

/// The type of the position among parameters of these types. The receiver, at 0, has none.
pub fn parameter_type(params: &[Name], position: u32) -> Option<&Name>
    ensures { option_copied result ≡ parameter_type params.now position }
{
    if position == 0 {
        None
    } else {
        params.get((position - 1) as usize)
    }
}
