//! The steps of a method.

ghost use Rattle.std.specs.Prelude.{◌≡◌, ◌++◌, IfOk, OnOk, option_to_list};
ghost use Rattle.dex_code.specs.Acts.{act_of, naming_of};
ghost use Rattle.dex_code.specs.Find.{Ascend};
ghost use Rattle.app_machine.specs.Sound.{SoundApp};
ghost use Rattle.link_code.specs.Lift.{step_if, step_of, steps_of};
ghost use Rattle.link_code.specs.Named.{named_of};
ghost use Rattle.link_code.specs.StaticsInOrder.{StaticsInOrder};

use crate::naming::named_at;
use crate::scope::Scope;
use app_model::{Act, Step};
use dex_code::{Insn, act_for, catches_of_lines, next_of_line};
use dex_tables::RawTry;
use std::alloc::Global;
use vet_base::{Memory, Seq, Shared};

/// What the instruction does, in the app.
#[tactic(auto, using(crate::proofs::Named::suited))]
fn act_at(alloc: Global, scope: &Scope<'_>, insn: &Insn) -> Result<Act, Memory>
    requires app { SoundApp scope.now.app.now }
    requires statics { StaticsInOrder scope.now.statics.now }
    ensures { IfOk result (λ act. act ≡ act_of insn.now (named_of scope.now.app.now scope.now.fields.now.entries
        scope.now.statics.now scope.now.dex.now (naming_of insn.now))) }
{
    let named = named_at(alloc, scope, insn.naming())?;
    act_for(alloc, insn, named)
}

/// The step of a line before the rest of the lines, under the handlers that cover it.
#[tactic(auto, unfolding(crate::specs::Lift::step_of))]
fn step_at(
    alloc: Global,
    scope: &Scope<'_>,
    lines: &[(u32, Insn)],
    line: &(u32, Insn),
    rest: &[(u32, Insn)],
    catches: Shared<u32>,
) -> Result<Step, Memory>
    requires app { SoundApp scope.now.app.now }
    requires statics { StaticsInOrder scope.now.statics.now }
    requires lines { Ascend lines.now }
    ensures { IfOk result (λ s. s ≡ step_of scope.now.app.now scope.now.fields.now.entries scope.now.statics.now
        scope.now.dex.now lines.now line.now rest.now catches) }
{
    Ok(Step {
        pc: line.0,
        act: act_at(alloc, scope, &line.1)?,
        next: Seq::from_vec(next_of_line(alloc, lines, line, rest)?),
        catches,
    })
}

/// The same where the line is an instruction; none for a payload.
#[tactic(auto, unfolding(crate::specs::Lift::step_if))]
fn step_of_line(
    alloc: Global,
    scope: &Scope<'_>,
    lines: &[(u32, Insn)],
    line: &(u32, Insn),
    rest: &[(u32, Insn)],
    catches: Shared<u32>,
) -> Result<Option<Step>, Memory>
    requires app { SoundApp scope.now.app.now }
    requires statics { StaticsInOrder scope.now.statics.now }
    requires lines { Ascend lines.now }
    ensures { IfOk result (λ o. option_to_list o ≡ step_if scope.now.app.now scope.now.fields.now.entries
        scope.now.statics.now scope.now.dex.now lines.now line.now rest.now catches) }
{
    if line.1.is_payload() {
        return Ok(None);
    }
    Ok(Some(step_at(alloc, scope, lines, line, rest, catches)?))
}

fn add_step(steps: &mut Vec<Step>, step: Option<Step>) -> Result<(), Memory>
    ensures { OnOk result (steps.new.items ≡ steps.old.items ++ option_to_list step) }
{
    if let Some(step) = step {
        steps.push(step)?;
    }
    Ok(())
}

/// The steps of the lines of a method: one for each instruction.
pub fn steps_at(
    alloc: Global,
    scope: &Scope<'_>,
    tries: &[RawTry],
    lines: &[(u32, Insn)],
) -> Result<Seq<Step>, Memory>
    requires app { SoundApp scope.now.app.now }
    requires statics { StaticsInOrder scope.now.statics.now }
    requires lines { Ascend lines.now }
    ensures { IfOk result (λ steps. steps ≡ steps_of scope.now.app.now scope.now.fields.now.entries
        scope.now.statics.now scope.now.dex.now tries.now lines.now lines.now) }
{
    let mut steps = Vec::new(alloc);
    for (i, catches) in catches_of_lines(alloc, tries, lines)?
        .into_iter()
        .enumerate()
    {
        let rest = &lines[i + 1..];
        let step = step_of_line(alloc, scope, lines, &lines[i], rest, catches)?;
        add_step(&mut steps, step)?;
    }
    Ok(Seq::from_vec(steps))
}
