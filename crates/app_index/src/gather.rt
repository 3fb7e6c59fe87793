//! The steps that read a static, gathered by its number.
ghost use Rattle.std.specs.Prelude.{◌==◌, ◌<◌, ◌∷◌, [], cond, length, IfOk, OnOk};
ghost use Rattle.app_machine.specs.Sound.{SoundApp};
ghost use Rattle.app_index.specs.Readers.{reader_at, readers_in, HasReaders, HoldsAlike, IsLonger};

use crate::Reader;
use app_machine::{Act, App, Step};
use std::alloc::Global;
use vet_base::Memory;

/// For each static the steps of the app that read it.
#[tactic(auto, using(crate::proofs::Held::gathers_none, crate::proofs::Held::gathers_more, crate::proofs::Held::gathers_all))]
pub fn gather(alloc: Global, app: &App) -> Result<Vec<Vec<Reader>>, Memory>
    requires { SoundApp app.now }
    ensures { IfOk result (λ readers. HasReaders readers.items app.now) }
{
    let mut readers = Vec::new(alloc);
    for (number, method) in app.methods.as_slice().iter().enumerate() {
        note_steps(alloc, &mut readers, number as u32, method.steps.as_slice())?;
    }
    Ok(readers)
}

/// The steps of a method that read a static stand behind the others.
#[tactic(auto, using(crate::proofs::Held::steps_begin, crate::proofs::Held::steps_go_on, crate::proofs::Held::steps_done))]
fn note_steps(
    alloc: Global,
    readers: &mut Vec<Vec<Reader>>,
    method: u32,
    steps: &[Step],
) -> Result<(), Memory>
    ensures { OnOk result (IsLonger readers.old.items readers.new.items (λ g. readers_in g method steps.now)) }
{
    for step in steps {
        note_step(alloc, readers, method, step)?;
    }
    Ok(())
}

/// A step, where it reads a static.
#[tactic(auto, using(crate::proofs::Held::no_longer))]
fn note_step(
    alloc: Global,
    readers: &mut Vec<Vec<Reader>>,
    method: u32,
    step: &Step,
) -> Result<(), Memory>
    ensures { OnOk result (IsLonger readers.old.items readers.new.items (λ g. reader_at g method step.now)) }
{
    match &step.act {
        Act::GetStatic(_, number) => note(
            alloc,
            readers,
            *number,
            Reader {
                method,
                pc: step.pc,
            },
        ),
        _ => Ok(()),
    }
}

/// A reader of the static of this number.
fn note(
    alloc: Global,
    readers: &mut Vec<Vec<Reader>>,
    number: u32,
    reader: Reader,
) -> Result<(), Memory>
    ensures { OnOk result (IsLonger readers.old.items readers.new.items (λ g. cond (number == g) (reader ∷ []) [])) }
{
    lengthen(alloc, readers, number as usize)?;
    let own = &mut readers[number as usize];
    own.push(reader)?;
    Ok(())
}

/// Makes a list for the number, where there is none.
#[tactic(auto, using(crate::proofs::Held::alike_itself, crate::proofs::Held::alike_with_none))]
fn lengthen(alloc: Global, readers: &mut Vec<Vec<Reader>>, number: usize) -> Result<(), Memory>
    ensures same { OnOk result (HoldsAlike readers.old.items readers.new.items) }
    ensures long { OnOk result (number < length readers.new.items) }
{
    while readers.len() <= number {
        readers.push(Vec::new(alloc))?;
    }
    Ok(())
}
