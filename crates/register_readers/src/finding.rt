//! The places of a method at which rules ask, each with its readers.
ghost use Rattle.std.specs.Prelude.{◌≡◌, ◌≤◌, ◌+◌, true, IfOk, OnOk, Some, slice_get};
ghost use Rattle.app_machine.specs.Sound.{SoundApp};
ghost use Rattle.vet_base.specs.Members.{In};
ghost use Rattle.register_readers.specs.Found.{
  AreIndexed,
  Asks,
  IsArgument,
  IsIndexed,
  IsOfOne,
  IsOfStep,
  IsRight,
  count_of,
};
ghost use Rattle.register_readers.specs.Searched.{IsFree};

use crate::acts::given_to;
use crate::budget::Budget;
use crate::places::Place;
use crate::results::ask_results;
use crate::search::Search;
use app_machine::{App, Method, Step};
use rule_ground::EXCEPTION;
use std::alloc::Global;
use std::collections::BTreeMap;
use vet_base::Memory;

/// For each place of a method at which rules ask, its readers.
pub type Found = BTreeMap<Place, Vec<u32>>;

/// With what readers are looked for.
#[derive(Drop)]
pub struct Tools {
    pub search: Search,
    pub budget: Budget,
}

/// Asks at the place, where it was not asked before.
#[tactic(auto, using(crate::proofs::Asking::asks_again, crate::proofs::Asking::asks_anew, crate::proofs::Asking::right_more, crate::proofs::Counting::counts_new))]
fn ask(
    alloc: Global,
    app: &App,
    method: u32,
    place: Place,
    tools: &mut Tools,
    found: &mut Found,
) -> Result<(), Memory>
    requires app { SoundApp app.now }
    requires free { IsFree tools.old.search }
    requires right { IsRight app.now method found.old }
    ensures free { OnOk result (IsFree tools.new.search) }
    ensures right { OnOk result (IsRight app.now method found.new) }
    ensures counted { OnOk result (count_of found.new + tools.new.budget.readers ≡ count_of found.old
        + tools.old.budget.readers) }
    ensures asks { OnOk result (Asks (λ r pc. (r ≡ place.register) × (pc ≡ place.pc)) found.old found.new) }
{
    tools.budget.visit()?;
    if found.contains_key(&place) {
        return Ok(());
    }
    let readers = tools
        .search
        .readers(alloc, app, method, place, &mut tools.budget)?;
    found.insert(place, readers)?;
    Ok(())
}

/// Asks of the register at each of the addresses.
#[tactic(auto, using(crate::proofs::Asking::at_none, crate::proofs::Asking::at_more, crate::proofs::Asking::at_all))]
pub fn ask_at(
    alloc: Global,
    app: &App,
    method: u32,
    register: u32,
    pcs: &[u32],
    tools: &mut Tools,
    found: &mut Found,
) -> Result<(), Memory>
    requires app { SoundApp app.now }
    requires free { IsFree tools.old.search }
    requires right { IsRight app.now method found.old }
    ensures free { OnOk result (IsFree tools.new.search) }
    ensures right { OnOk result (IsRight app.now method found.new) }
    ensures counted { OnOk result (count_of found.new + tools.new.budget.readers ≡ count_of found.old
        + tools.old.budget.readers) }
    ensures asks { OnOk result (Asks (λ r pc. (r ≡ register) × In pc pcs.now) found.old found.new) }
{
    for pc in pcs {
        ask(
            alloc,
            app,
            method,
            Place { register, pc: *pc },
            tools,
            found,
        )?;
    }
    Ok(())
}

/// Asks of each of the registers at each of the addresses.
#[tactic(auto, using(crate::proofs::Asking::of_none, crate::proofs::Asking::of_more, crate::proofs::Asking::of_all))]
fn ask_all(
    alloc: Global,
    app: &App,
    method: u32,
    registers: &[u32],
    pcs: &[u32],
    tools: &mut Tools,
    found: &mut Found,
) -> Result<(), Memory>
    requires app { SoundApp app.now }
    requires free { IsFree tools.old.search }
    requires right { IsRight app.now method found.old }
    ensures free { OnOk result (IsFree tools.new.search) }
    ensures right { OnOk result (IsRight app.now method found.new) }
    ensures counted { OnOk result (count_of found.new + tools.new.budget.readers ≡ count_of found.old
        + tools.old.budget.readers) }
    ensures asks { OnOk result (Asks (λ r pc. In r registers.now × In pc pcs.now) found.old found.new) }
{
    for register in registers {
        ask_at(alloc, app, method, *register, pcs, tools, found)?;
    }
    Ok(())
}

/// Asks behind the step, and at its handlers.
#[tactic(auto, using(crate::proofs::Asking::of_step))]
fn ask_step(
    alloc: Global,
    app: &App,
    method: u32,
    step: &Step,
    tools: &mut Tools,
    found: &mut Found,
) -> Result<(), Memory>
    requires app { SoundApp app.now }
    requires free { IsFree tools.old.search }
    requires right { IsRight app.now method found.old }
    ensures free { OnOk result (IsFree tools.new.search) }
    ensures right { OnOk result (IsRight app.now method found.new) }
    ensures counted { OnOk result (count_of found.new + tools.new.budget.readers ≡ count_of found.old
        + tools.old.budget.readers) }
    ensures asks { OnOk result (Asks (IsOfStep step.now) found.old found.new) }
{
    let next = step.next.as_slice();
    let catches = step.catches.as_slice();
    ask_all(alloc, app, method, given_to(&step.act), next, tools, found)?;
    ask_at(alloc, app, method, EXCEPTION, catches, tools, found)
}

/// The same of each step.
#[tactic(auto, using(crate::proofs::Asking::steps_none, crate::proofs::Asking::steps_more, crate::proofs::Asking::steps_all))]
fn ask_steps(
    alloc: Global,
    app: &App,
    method: u32,
    steps: &[Step],
    tools: &mut Tools,
    found: &mut Found,
) -> Result<(), Memory>
    requires app { SoundApp app.now }
    requires free { IsFree tools.old.search }
    requires right { IsRight app.now method found.old }
    ensures free { OnOk result (IsFree tools.new.search) }
    ensures right { OnOk result (IsRight app.now method found.new) }
    ensures counted { OnOk result (count_of found.new + tools.new.budget.readers ≡ count_of found.old
        + tools.old.budget.readers) }
    ensures asks { OnOk result (Asks (IsOfOne steps.now) found.old found.new) }
{
    for step in steps {
        ask_step(alloc, app, method, step, tools, found)?;
    }
    Ok(())
}

/// Asks of each of so many registers, from the first of them on, where the method begins.
#[tactic(auto, using(crate::proofs::Asking::no_argument, crate::proofs::Asking::argument_more))]
fn ask_arguments(
    alloc: Global,
    app: &App,
    method: u32,
    first: u32,
    count: u32,
    tools: &mut Tools,
    found: &mut Found,
) -> Result<(), Memory>
    requires app { SoundApp app.now }
    requires fits { first + count ≤ 65535 }
    requires free { IsFree tools.old.search }
    requires right { IsRight app.now method found.old }
    ensures free { OnOk result (IsFree tools.new.search) }
    ensures right { OnOk result (IsRight app.now method found.new) }
    ensures counted { OnOk result (count_of found.new + tools.new.budget.readers ≡ count_of found.old
        + tools.old.budget.readers) }
    ensures asks { OnOk result (Asks (IsArgument first count) found.old found.new) }
{
    for i in 0..count {
        let register = first + i;
        ask(alloc, app, method, Place { register, pc: 0 }, tools, found)?;
    }
    Ok(())
}

/// The places of a method with code at which rules ask, with their readers.
#[tactic(auto, using(crate::proofs::Asking::right_none))]
fn found_in_code(
    alloc: Global,
    app: &App,
    number: u32,
    method: &Method,
    tools: &mut Tools,
) -> Result<Found, Memory>
    requires app { SoundApp app.now }
    requires there { slice_get app.now.methods number ≡ Some method.now }
    requires within { method.now.ins ≤ method.now.registers }
    requires fits { method.now.registers ≤ 65535 }
    requires free { IsFree tools.old.search }
    ensures free { OnOk result (IsFree tools.new.search) }
    ensures found { IfOk result (λ found. IsIndexed app.now number found) }
    ensures counted { IfOk result (λ found. count_of found + tools.new.budget.readers ≡ tools.old.budget.readers) }
{
    let mut found = BTreeMap::new(alloc);
    let first = method.registers - method.ins;
    let steps = method.steps.as_slice();
    ask_arguments(alloc, app, number, first, method.ins, tools, &mut found)?;
    ask_steps(alloc, app, number, steps, tools, &mut found)?;
    ask_results(alloc, app, number, steps, tools, &mut found)?;
    Ok(found)
}

/// The same of a native method, which has none.
#[tactic(auto, using(crate::proofs::Indexing::indexed_native))]
fn found_in_native(alloc: Global, app: &App, number: u32, method: &Method) -> Found
    requires app { SoundApp app.now }
    requires there { slice_get app.now.methods number ≡ Some method.now }
    requires native { method.now.is_native ≡ true }
    ensures found { IsIndexed app.now number result }
    ensures counted { count_of result ≡ 0 }
{
    let _app = app;
    let _number = number;
    let _method = method;
    BTreeMap::new(alloc)
}

/// The same of any method.
#[tactic(auto, using(crate::proofs::Indexing::code_within, crate::proofs::Indexing::code_fits))]
fn found_in(
    alloc: Global,
    app: &App,
    number: u32,
    method: &Method,
    tools: &mut Tools,
) -> Result<Found, Memory>
    requires app { SoundApp app.now }
    requires there { slice_get app.now.methods number ≡ Some method.now }
    requires free { IsFree tools.old.search }
    ensures free { OnOk result (IsFree tools.new.search) }
    ensures found { IfOk result (λ found. IsIndexed app.now number found) }
    ensures counted { IfOk result (λ found. count_of found + tools.new.budget.readers ≡ tools.old.budget.readers) }
{
    if method.is_native {
        Ok(found_in_native(alloc, app, number, method))
    } else {
        found_in_code(alloc, app, number, method, tools)
    }
}

/// The same of each method of the app.
#[tactic(auto, using(crate::proofs::Indexing::indexed_none, crate::proofs::Indexing::indexed_all, crate::proofs::Indexing::method_at, crate::proofs::Counting::counts_end))]
pub fn found_in_all(alloc: Global, app: &App) -> Result<Vec<Found>, Memory>
    requires { SoundApp app.now }
    ensures { IfOk result (λ methods. AreIndexed app.now methods.items) }
{
    let mut tools = Tools {
        search: Search::new(alloc),
        budget: Budget::new(),
    };
    let mut methods = Vec::new(alloc);
    for (number, method) in app.methods.as_slice().iter().enumerate() {
        let found = found_in(alloc, app, number as u32, method, &mut tools)?;
        methods.push(found)?;
    }
    Ok(methods)
}
