//! The places at which the readers of results are asked for besides. Code as compilers write it reads a result right
//! behind the step that gives it, and there is nothing else to find.
ghost use Rattle.std.specs.Prelude.{◌≡◌, ◌+◌, IsTrue, OnOk};
ghost use Rattle.app_machine.specs.Sound.{SoundApp};
ghost use Rattle.app_machine.specs.State.{holds, result_register};
ghost use Rattle.register_readers.specs.Asked.{given_to};
ghost use Rattle.register_readers.specs.Found.{Asks, IsBehindOne, IsRight, count_of};
ghost use Rattle.register_readers.specs.Results.{any_late, any_reads, is_late};
ghost use Rattle.register_readers.specs.Searched.{IsFree};

use crate::acts::given_to;
use crate::finding::{Found, Tools, ask_at};
use crate::search::reads_at;
use app_machine::{Act, App, Step};
use app_parts::RESULT;
use rule_ground::is_among;
use std::alloc::Global;
use vet_base::Memory;

/// Whether a step at one of the addresses reads the result.
#[tactic(auto, using(std::proofs::lemmas::List::Folds::list_any_at))]
fn any_reads(app: &App, method: u32, pcs: &[u32]) -> bool
    requires { SoundApp app.now }
    ensures { result ≡ any_reads app.now method pcs.now }
{
    for pc in pcs {
        if reads_at(app, method, RESULT, *pc) {
            return true;
        }
    }
    false
}

/// Whether the act gives a result.
fn gives_result(act: &Act) -> bool
    ensures { result ≡ holds (given_to act.now) result_register }
{
    is_among(given_to(act), RESULT)
}

/// Whether the result is read in a handler of the step, or behind the step though it gives none.
fn is_late(app: &App, method: u32, step: &Step) -> bool
    requires { SoundApp app.now }
    ensures { result ≡ is_late app.now method step.now }
{
    if any_reads(app, method, step.catches.as_slice()) {
        true
    } else if gives_result(&step.act) {
        false
    } else {
        any_reads(app, method, step.next.as_slice())
    }
}

/// Whether one of the steps is such a step.
#[tactic(auto, using(std::proofs::lemmas::List::Folds::list_any_at))]
fn any_late(app: &App, method: u32, steps: &[Step]) -> bool
    requires { SoundApp app.now }
    ensures { result ≡ any_late app.now method steps.now }
{
    for step in steps {
        if is_late(app, method, step) {
            return true;
        }
    }
    false
}

/// Asks of the result behind each of the steps.
#[tactic(auto, using(crate::proofs::Late::behind_none, crate::proofs::Late::behind_all))]
fn ask_behind_each(
    alloc: Global,
    app: &App,
    method: u32,
    steps: &[Step],
    tools: &mut Tools,
    found: &mut Found,
) -> Result<(), Memory>
    requires app { SoundApp app.now }
    requires free { IsFree tools.old.search }
    requires right { IsRight app.now method found.old }
    ensures free { OnOk result (IsFree tools.new.search) }
    ensures right { OnOk result (IsRight app.now method found.new) }
    ensures counted { OnOk result (count_of found.new + tools.new.budget.readers ≡ count_of found.old
        + tools.old.budget.readers) }
    ensures asks { OnOk result (Asks (λ r pc. (r ≡ result_register) × IsBehindOne steps.now pc) found.old found.new) }
{
    for step in steps {
        let next = step.next.as_slice();
        ask_at(alloc, app, method, RESULT, next, tools, found)?;
    }
    Ok(())
}

/// The same, where a result may be read elsewhere than right behind the step that gives it.
#[tactic(auto, using(crate::proofs::Late::where_late, crate::proofs::Late::nowhere_late))]
pub fn ask_results(
    alloc: Global,
    app: &App,
    method: u32,
    steps: &[Step],
    tools: &mut Tools,
    found: &mut Found,
) -> Result<(), Memory>
    requires app { SoundApp app.now }
    requires free { IsFree tools.old.search }
    requires right { IsRight app.now method found.old }
    ensures free { OnOk result (IsFree tools.new.search) }
    ensures right { OnOk result (IsRight app.now method found.new) }
    ensures counted { OnOk result (count_of found.new + tools.new.budget.readers ≡ count_of found.old
        + tools.old.budget.readers) }
    ensures asks { OnOk result (Asks (λ r pc. IsTrue (any_late app.now method steps.now) × ((r ≡ result_register)
        × IsBehindOne steps.now pc)) found.old found.new) }
{
    if !any_late(app, method, steps) {
        return Ok(());
    }
    ask_behind_each(alloc, app, method, steps, tools, found)?;
    Ok(())
}
