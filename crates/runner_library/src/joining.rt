ghost use Rattle.std.specs.Prelude.{◌≡◌, ◌⊎◌, ◌↔◌, ℕ, Bool, IsTrue, List, IfOk, map};
ghost use Rattle.app_machine.specs.declared.call.MethodRef.{MethodRef as AMethod};
ghost use Rattle.app_machine.specs.declared.summary.Gives.TheVariants.{Joined};
ghost use Rattle.app_parts.specs.Views.{shown_summary};
ghost use Rattle.played_machine.specs.Reading.{reached};
ghost use Rattle.runner_heap.specs.Objects.{heap_of};
ghost use Rattle.runner_library.specs.Over.{joined_by};
ghost use Rattle.runner_state.specs.Shown.{labels_of, value_of};
ghost use Rattle.vet_base.specs.Members.{In};

use crate::positions::value_at;
use app_machine::MethodRef;
use app_parts::{SummaryView, is_joined_from, source};
use runner_heap::Heap;
use runner_reach::reached;
use runner_state::{Held, Labels};
use std::alloc::Global;
use vet_base::Memory;

/// The labels of a joined result: that of the row, and all that the positions reach from which it is joined.
pub fn joined(
    alloc: Global,
    heap: &Heap,
    values: &[Held],
    view: SummaryView,
    at: &MethodRef,
    is_static: bool,
) -> Result<Labels, Memory>
    ensures { (from : List ℕ) → (shown_summary view.entry at.now is_static).gives ≡ Joined from →
        IfOk result (λ labels. labels_of labels ≡ joined_by (heap_of heap.now) (map value_of values.now) from
        (shown_summary view.entry at.now is_static).source) }
{
    let mut labels = source_labels(view);
    for position in 0..values.len() {
        let joins = is_joined_from(view, at, is_static, position);
        labels = with_reached(alloc, heap, labels, value_at(values, position), joins)?;
    }
    Ok(labels)
}

/// The label that the row gives the result.
fn source_labels(view: SummaryView) -> Labels
    ensures { (at : AMethod) (is_static : Bool) (l : ℕ) → In l (labels_of result)
        ↔ ((shown_summary view.entry at is_static).source ≡ Some l) }
{
    match source(view) {
        Some(category) => Labels::one(category),
        None => Labels::none(),
    }
}

/// The labels with all that the value reaches, where it joins.
fn with_reached(
    alloc: Global,
    heap: &Heap,
    labels: Labels,
    value: Held,
    joins: bool,
) -> Result<Labels, Memory>
    ensures { IfOk result (λ all. (l : ℕ) → In l (labels_of all)
        ↔ (In l (labels_of labels) ⊎ (IsTrue joins × In l (reached (heap_of heap.now) (value_of value))))) }
{
    if !joins {
        return Ok(labels);
    }
    let more = reached(alloc, heap, value)?;
    Ok(labels.joined(more))
}
