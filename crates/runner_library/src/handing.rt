ghost use Rattle.std.specs.Prelude.{◌≡◌, OnOk, map, reverse};
ghost use Rattle.played_machine.specs.Reading.{handed_places};
ghost use Rattle.runner_library.specs.Over.{hand_each};
ghost use Rattle.runner_state.specs.Shown.{value_of};

use runner_state::Held;
use runner_world::Handed;
use vet_base::Memory;

/// Hands the places of these values, one after the other.
pub fn hand_all(handed: &mut Handed, values: &[Held]) -> Result<(), Memory>
    ensures { OnOk result (handed_places (reverse handed.new)
        ≡ handed_places (hand_each (map value_of values.now) (reverse handed.old))) }
{
    for value in values {
        handed.hand(value.place)?;
    }
    Ok(())
}
