ghost use Rattle.std.specs.Prelude.{◌≡◌, ◌++◌, OnOk, map};
ghost use Rattle.runner_heap.specs.Objects.{heap_of};
ghost use Rattle.runner_library.specs.Over.{arrivals_at_each, arrivals_by, arrivals_with, if_label};
ghost use Rattle.runner_state.specs.Shown.{labels_of, value_of};
ghost use Rattle.runner_world.specs.Shown.{arrival_of};

use crate::positions::value_at;
use crate::sorting::sorted;
use runner_heap::Heap;
use runner_reach::reached;
use runner_state::{Held, Labels};
use runner_world::Arrival;
use std::alloc::Global;
use vet_base::Memory;

/// A sink of this category at the instruction that calls.
#[derive(Clone, Copy)]
pub struct Sink {
    pub category: u8,
    pub method: u32,
    pub pc: u32,
}

/// What arrives at the sink: by position ascending, and of each position the labels that its value reaches,
/// ascending.
pub fn arrive(
    alloc: Global,
    heap: &Heap,
    arrivals: &mut Vec<Arrival>,
    values: &[Held],
    sink: Sink,
    positions: &[u32],
) -> Result<(), Memory>
    ensures { OnOk result (map arrival_of arrivals.new.items ≡ map arrival_of arrivals.old.items
        ++ arrivals_by (heap_of heap.now) (map value_of values.now) sink positions.now) }
{
    let ascending = sorted(alloc, positions)?;
    arrive_at_each(alloc, heap, arrivals, values, sink, ascending.as_slice())?;
    Ok(())
}

/// What arrives at these positions, one after the other.
fn arrive_at_each(
    alloc: Global,
    heap: &Heap,
    arrivals: &mut Vec<Arrival>,
    values: &[Held],
    sink: Sink,
    positions: &[u32],
) -> Result<(), Memory>
    ensures { OnOk result (map arrival_of arrivals.new.items ≡ map arrival_of arrivals.old.items
        ++ arrivals_at_each (heap_of heap.now) (map value_of values.now) sink positions.now) }
{
    for position in positions {
        let labels = reached(alloc, heap, value_at(values, *position as usize))?;
        add_arrivals(arrivals, labels, sink)?;
    }
    Ok(())
}

/// Adds an arrival of each of the labels.
fn add_arrivals(arrivals: &mut Vec<Arrival>, labels: Labels, sink: Sink) -> Result<(), Memory>
    ensures { OnOk result (map arrival_of arrivals.new.items ≡ map arrival_of arrivals.old.items
        ++ arrivals_with sink (labels_of labels)) }
{
    for label in 0..256u32 {
        add_if(arrivals, labels, label as u8, sink)?;
    }
    Ok(())
}

/// Adds an arrival of the label, where it is one of these.
fn add_if(arrivals: &mut Vec<Arrival>, labels: Labels, label: u8, sink: Sink) -> Result<(), Memory>
    ensures { OnOk result (map arrival_of arrivals.new.items ≡ map arrival_of arrivals.old.items
        ++ arrivals_with sink (if_label labels label)) }
{
    if !labels.has(label) {
        return Ok(());
    }
    arrivals.push(Arrival {
        label,
        sink: sink.category,
        method: sink.method,
        pc: sink.pc,
    })?;
    Ok(())
}
