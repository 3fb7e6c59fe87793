ghost use Rattle.std.specs.Prelude.{◌≡◌, option_map};
ghost use Rattle.runner_heap.specs.Objects.{heap_of};
ghost use Rattle.runner_heap.specs.Shown.{value_behind};
ghost use Rattle.runner_local.specs.Changed.{labels_in, read_by};
ghost use Rattle.runner_state.specs.Shown.{labels_of, register_in};

use app_machine::Act;
use runner_heap::{Heap, got};
use runner_state::{Held, Labels, Registers, Script};

/// What the script gives the act: what a get gives. None exactly where a byte is wanted and there is none.
pub fn read<'s>(
    heap: &Heap,
    registers: &Registers,
    act: &Act,
    script: Script<'s>,
) -> Option<(Held, Script<'s>)>
    ensures { option_map value_behind result
        ≡ read_by (heap_of heap.now) (register_in registers.now) act.now script.entry.left.now }
{
    match act {
        Act::Get(_, object, key) => got(heap, registers.get(*object), *key, script),
        _ => Some((Held::blank(), script)),
    }
}

/// The labels that the values of these registers have themselves.
pub fn own_labels(registers: &Registers, from: &[u32]) -> Labels
    ensures { labels_of result ≡ labels_in (register_in registers.now) from.now }
{
    let mut labels = Labels::none();
    for register in from {
        labels = labels.joined(registers.get(*register).labels);
    }
    labels
}
