//! The search from a place along steps that do not write its register.
ghost use Rattle.std.specs.Prelude.{◌≡◌, ◌==◌, ◌<◌, ◌≤◌, ◌+◌, ◌↔◌, [], ◌∷◌, ◌++◌, ℕ, IfOk, IsFalse, OnOk, cond, length};
ghost use Rattle.app_machine.specs.Local.{writes};
ghost use Rattle.app_machine.specs.Sound.{SoundApp};
ghost use Rattle.app_machine.specs.State.{exception_register};
ghost use Rattle.cell_rules.specs.Reading.{ReadAt};
ghost use Rattle.cell_rules.specs.Searching.{AreMet, Keeps};
ghost use Rattle.vet_base.specs.Members.{In};
ghost use Rattle.register_readers.specs.Bounds.{most_of_one};
ghost use Rattle.register_readers.specs.Searched.{
  Adds,
  IsFree,
  IsLonger,
  IsSettled,
  Unmarks,
  is_read_at,
  readers_among,
};

use crate::acts::reads;
use crate::budget::Budget;
use crate::places::Place;
use app_machine::{App, Step};
use app_model::step_at;
use app_parts::writes;
use cell_rules::readers_are_met;
use rule_ground::EXCEPTION;
use std::alloc::Global;
use vet_base::Memory;

/// The addresses that a search has met: all are marked, and some wait for their turn.
#[derive(Drop)]
pub struct Search {
    marks: Vec<bool>,
    waiting: Vec<u32>,
    done: Vec<u32>,
}

impl Search {
    pub fn new(alloc: Global) -> Search
        ensures { IsFree result }
    {
        Search {
            marks: Vec::new(alloc),
            waiting: Vec::new(alloc),
            done: Vec::new(alloc),
        }
    }

    /// Adds an address, where it was not met.
    #[tactic(auto, using(crate::proofs::Adding::adds_met, crate::proofs::Adding::adds_new))]
    fn add(&mut self, pc: u32) -> Result<(), Memory>
        ensures { OnOk result (Adds (λ v. v ≡ pc) self.old self.new) }
    {
        lengthen(&mut self.marks, pc as usize)?;
        if self.marks[pc as usize] {
            return Ok(());
        }
        self.marks[pc as usize] = true;
        self.waiting.push(pc)?;
        Ok(())
    }

    /// Adds each of these.
    #[tactic(auto, using(crate::proofs::Adding::each_begins, crate::proofs::Adding::each_goes_on, crate::proofs::Adding::each_done))]
    fn add_each(&mut self, pcs: &[u32]) -> Result<(), Memory>
        ensures { OnOk result (Adds (λ v. In v pcs.now) self.old self.new) }
    {
        for pc in pcs {
            self.add(*pc)?;
        }
        Ok(())
    }

    /// Adds those where control goes next, where the step does not write the register.
    #[tactic(auto, using(crate::proofs::Adding::adds_where, crate::proofs::Adding::adds_nowhere))]
    fn add_next(&mut self, step: &Step, register: u32) -> Result<(), Memory>
        ensures { OnOk result (Adds (λ v. IsFalse (writes step.now.act register) × In v step.now.next) self.old self.new) }
    {
        if writes(&step.act, register) {
            Ok(())
        } else {
            self.add_each(step.next.as_slice())
        }
    }

    /// Adds the handlers, but of the exception, which they set.
    #[tactic(auto, using(crate::proofs::Adding::adds_where, crate::proofs::Adding::adds_nowhere))]
    fn add_handlers(&mut self, step: &Step, register: u32) -> Result<(), Memory>
        ensures { OnOk result (Adds (λ v. IsFalse (register == exception_register) × In v step.now.catches) self.old
            self.new) }
    {
        if is_exception(register) {
            Ok(())
        } else {
            self.add_each(step.catches.as_slice())
        }
    }

    /// Adds those to which the register keeps its value from the address.
    #[tactic(auto, using(crate::proofs::Adding::keeps_at, crate::proofs::Adding::keeps_nowhere))]
    fn go_on(&mut self, app: &App, method: u32, register: u32, pc: u32) -> Result<(), Memory>
        requires { SoundApp app.now }
        ensures { OnOk result (Adds (Keeps app.now method register pc) self.old self.new) }
    {
        match step_at(app, method, pc) {
            None => Ok(()),
            Some(step) => {
                self.add_next(step, register)?;
                self.add_handlers(step, register)
            }
        }
    }

    /// Comes to all addresses to which the register keeps its value from the place.
    #[tactic(auto, using(crate::proofs::Running::runs_first, crate::proofs::Running::runs_on, crate::proofs::Running::settles, crate::proofs::Running::has_met))]
    fn run(
        &mut self,
        app: &App,
        method: u32,
        place: Place,
        budget: &mut Budget,
    ) -> Result<(), Memory>
        requires app { SoundApp app.now }
        requires free { IsFree self.old }
        ensures settled { OnOk result (IsSettled self.new) }
        ensures unlisted { OnOk result (budget.new.readers ≡ budget.old.readers) }
        ensures met { OnOk result (AreMet app.now method place.register place.pc self.new.done.items) }
    {
        self.add(place.pc)?;
        while let Some(pc) = self.waiting.pop() {
            budget.visit()?;
            self.done.push(pc)?;
            self.go_on(app, method, place.register, pc)?;
        }
        Ok(())
    }

    /// Takes all marks away.
    #[tactic(auto, using(crate::proofs::Clearing::all_cleared))]
    fn clear(&mut self)
        requires { IsSettled self.old }
        ensures { IsFree self.new }
    {
        unmark(&mut self.marks, &self.done);
        self.done.clear();
    }

    /// The addresses whose steps read what stands in the register at the place. They are counted before they
    /// are listed.
    #[tactic(auto, using(crate::proofs::Running::just_readers))]
    pub fn readers(
        &mut self,
        alloc: Global,
        app: &App,
        method: u32,
        place: Place,
        budget: &mut Budget,
    ) -> Result<Vec<u32>, Memory>
        requires app { SoundApp app.now }
        requires free { IsFree self.old }
        ensures free { OnOk result (IsFree self.new) }
        ensures exact { IfOk result (λ v. (u : ℕ) → In u v.items ↔ ReadAt app.now method place.register
            place.pc u) }
        ensures few { IfOk result (λ v. length v.items ≤ most_of_one) }
        ensures counted { IfOk result (λ v. budget.new.readers + length v.items ≡ budget.old.readers) }
    {
        readers_are_met();
        self.run(app, method, place, budget)?;
        budget.list(count_among(app, method, place.register, &self.done))?;
        let readers = list_among(alloc, app, method, place.register, &self.done)?;
        self.clear();
        Ok(readers)
    }
}

/// Whether it is the register of exceptions.
fn is_exception(register: u32) -> bool
    ensures { result ≡ (register == exception_register) }
{
    register == EXCEPTION
}

/// Makes room for a mark at the index. No mark changes.
#[tactic(auto, using(crate::proofs::Adding::longer_itself, crate::proofs::Adding::longer_more))]
fn lengthen(marks: &mut Vec<bool>, index: usize) -> Result<(), Memory>
    ensures same { OnOk result (IsLonger marks.old.items marks.new.items) }
    ensures long { OnOk result (index < length marks.new.items) }
{
    while marks.len() <= index {
        marks.push(false)?;
    }
    Ok(())
}

/// Takes the mark of the address away.
#[tactic(auto, using(crate::proofs::Clearing::unmarks_one, crate::proofs::Clearing::unmarks_past))]
fn unmark_one(marks: &mut Vec<bool>, pc: u32)
    ensures { Unmarks (pc ∷ []) marks.old.items marks.new.items }
{
    let at = pc as usize;
    if at < marks.len() {
        marks[at] = false;
    }
}

/// Takes the marks of these addresses away.
#[tactic(auto, using(crate::proofs::Clearing::unmarks_none, crate::proofs::Clearing::unmarks_more, crate::proofs::Clearing::unmarks_all))]
fn unmark(marks: &mut Vec<bool>, pcs: &[u32])
    ensures { Unmarks pcs.now marks.old.items marks.new.items }
{
    for pc in pcs {
        unmark_one(marks, *pc);
    }
}

/// Whether the step at the address reads the register.
#[tactic(auto, using(crate::proofs::Reading::read_there, crate::proofs::Reading::read_nowhere))]
pub fn reads_at(app: &App, method: u32, register: u32, pc: u32) -> bool
    requires { SoundApp app.now }
    ensures { result ≡ is_read_at app.now method register pc }
{
    match step_at(app, method, pc) {
        Some(step) => reads(&step.act, register),
        None => false,
    }
}

/// One where the step at the address reads the register.
fn one_at(app: &App, method: u32, register: u32, pc: u32) -> usize
    requires { SoundApp app.now }
    ensures same { result ≡ cond (is_read_at app.now method register pc) 1 0 }
    ensures small { result ≤ 1 }
{
    if reads_at(app, method, register, pc) {
        1
    } else {
        0
    }
}

/// How many of the addresses have a step that reads the register.
#[tactic(auto, using(crate::proofs::Reading::counts_none, crate::proofs::Reading::counts_all))]
fn count_among(app: &App, method: u32, register: u32, pcs: &[u32]) -> usize
    requires { SoundApp app.now }
    ensures { result ≡ length (readers_among app.now method register pcs.now) }
{
    let mut count = 0;
    for pc in pcs {
        count += one_at(app, method, register, *pc);
    }
    count
}

/// Lists the address behind the others, where its step reads the register.
fn list_one(
    app: &App,
    method: u32,
    register: u32,
    pc: u32,
    readers: &mut Vec<u32>,
) -> Result<(), Memory>
    requires { SoundApp app.now }
    ensures { OnOk result (readers.new.items ≡ cond (is_read_at app.now method register pc) (readers.old.items ++ pc
        ∷ []) readers.old.items) }
{
    if reads_at(app, method, register, pc) {
        readers.push(pc)?;
    }
    Ok(())
}

/// Those of the addresses whose steps read the register.
#[tactic(auto, using(crate::proofs::Reading::lists_none, crate::proofs::Reading::lists_all))]
fn list_among(
    alloc: Global,
    app: &App,
    method: u32,
    register: u32,
    pcs: &[u32],
) -> Result<Vec<u32>, Memory>
    requires { SoundApp app.now }
    ensures { IfOk result (λ v. v.items ≡ readers_among app.now method register pcs.now) }
{
    let mut readers = Vec::new(alloc);
    for pc in pcs {
        list_one(app, method, register, *pc, &mut readers)?;
    }
    Ok(readers)
}
