ghost use Rattle.std.specs.Prelude.{◌≡◌, ◌<◌, IfOk, map};
ghost use Rattle.std.specs.List.{All};
ghost use Rattle.app_machine.specs.Sound.{SoundApp};
ghost use Rattle.played_machine.specs.Librarian.{joined_value};
ghost use Rattle.runner_heap.specs.Objects.{heap_of};
ghost use Rattle.runner_library.specs.Over.{result_by, shared_of};
ghost use Rattle.runner_state.specs.Shown.{held_at, labels_of, value_of};

use crate::positions::value_at;
use crate::sharing::shared_static;
use app_machine::App;
use app_parts::{CallResult, is_reference, is_void};
use runner_heap::{Entity, Heap};
use runner_state::{Held, Labels, Values};
use std::alloc::Global;
use vet_base::{Memory, Name};

/// What is known of a result before the call: what the script gives, and the labels of a joined one.
#[derive(Clone, Copy)]
pub struct Known {
    pub read: Held,
    pub labels: Labels,
}

/// The result of a call of a method with this result type. A joined one of a class is a new object.
pub fn result<'a>(
    alloc: Global,
    app: &App,
    heap: &mut Heap<'a>,
    statics: &Values,
    values: &[Held],
    ret: &'a Name,
    gives: CallResult,
    known: Known,
) -> Result<Held, Memory>
    requires sound { SoundApp app.now }
    requires few { All (λ g. g < 65536) (shared_of gives) }
    ensures { IfOk result (λ held. (heap_of heap.new, value_of held) ≡ result_by app.now (map value_of values.now)
        ret.entry.now (held_at statics.now) (heap_of heap.old) known gives) }
{
    if is_void(ret) {
        return Ok(Held::blank());
    }
    match gives {
        CallResult::Blank => Ok(Held::blank()),
        CallResult::Same(position) => Ok(value_at(values, position as usize)),
        CallResult::Taken(_) => Ok(known.read),
        CallResult::Joined => {
            let held = join(alloc, heap, ret, known.labels)?;
            Ok(held)
        }
        CallResult::Shared(number) => Ok(statics.get(shared_static(app, number))),
        CallResult::Handed => Ok(known.read),
    }
}

/// A value with these labels: of a class a new object that has them in an element too.
fn join<'a>(
    alloc: Global,
    heap: &mut Heap<'a>,
    ret: &'a Name,
    labels: Labels,
) -> Result<Held, Memory>
    ensures { IfOk result (λ held. (heap_of heap.new, value_of held)
        ≡ joined_value ret.entry.now (heap_of heap.old) (labels_of labels)) }
{
    if !is_reference(ret) {
        return Ok(Held::labelled(labels));
    }
    let mut elements = Vec::new(alloc);
    elements.push(Held::labelled(labels))?;
    let place = heap.add(Entity::new(alloc, ret, elements))?;
    Ok(Held {
        place: Some(place),
        labels,
    })
}
