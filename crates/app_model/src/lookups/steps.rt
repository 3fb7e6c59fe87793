ghost use Rattle.std.specs.Prelude.{◌≡◌, ◌<◌, IsSome, find, length};
ghost use Rattle.std.specs.Option.{option_copied};
ghost use Rattle.vet_base.specs.Ascending.{Ascends};
ghost use Rattle.app_machine.specs.Lookups.{step_at};
ghost use Rattle.app_machine.specs.Sound.{SoundApp};
ghost use Rattle.app_model.specs.Search.{is_step_at, step_order};

use crate::{App, Step};

/// The step of the method of this number at the address. None exactly where the app has no such
/// method, or no step of it begins there.
#[tactic(auto, unfolding(app_machine::specs::Lookups::step_at), using(std::proofs::lemmas::Option::slice_get_within, crate::proofs::Steps::steps_ascend))]
pub fn step_at(app: &App, method: u32, pc: u32) -> Option<&Step>
    requires { SoundApp app.now }
    ensures same { option_copied result ≡ step_at app.now method pc }
    ensures within { IsSome result → method < length app.now.methods }
{
    match app.methods.get(method as usize) {
        Some(method) => step_among(method.steps.as_slice(), pc),
        None => None,
    }
}

/// The step at the address, by halving.
fn step_among(steps: &[Step], pc: u32) -> Option<&Step>
    requires { Ascends step_order steps.now }
    ensures { option_copied result ≡ find (is_step_at pc) steps.now }
{
    match steps.binary_search_by(|step| step.pc.cmp(&pc)) {
        Ok(i) => Some(&steps[i]),
        Err(_) => None,
    }
}
