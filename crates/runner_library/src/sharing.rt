ghost use Rattle.std.specs.Prelude.{◌≡◌, ◌<◌, ◌∷◌, [], ℕ, OnOk, map};
ghost use Rattle.std.specs.List.{All};
ghost use Rattle.std.specs.Option.{option_copied};
ghost use Rattle.app_machine.specs.Library.{shared_class};
ghost use Rattle.app_machine.specs.Sound.{SoundApp};
ghost use Rattle.app_machine.specs.State.{shared_static};
ghost use Rattle.played_machine.specs.Librarian.{made_shared, with_shared};
ghost use Rattle.runner_heap.specs.Objects.{heap_of};
ghost use Rattle.runner_library.specs.Over.{shared_number};
ghost use Rattle.runner_state.specs.Shown.{held_at};

use app_machine::{App, Lists};
use runner_heap::{Entity, Heap};
use runner_state::{Held, Values};
use std::alloc::Global;
use vet_base::{Memory, Name};

/// Makes each shared object that a store names and that is not there yet.
pub fn make_named<'a>(
    alloc: Global,
    app: &App,
    lists: &'a Lists,
    heap: &mut Heap<'a>,
    statics: &mut Values,
    stores: &[(u32, u32)],
) -> Result<(), Memory>
    requires sound { SoundApp app.now }
    requires few { All (λ (s : ℕ × ℕ). s.1 < 65536) stores.now }
    ensures { OnOk result ((heap_of heap.new, held_at statics.new)
        ≡ with_shared app.now lists.entry.now (map shared_number stores.now) (heap_of heap.old) (held_at statics.old)) }
{
    for store in stores {
        make_shared(alloc, app, lists, heap, statics, store.1)?;
    }
    Ok(())
}

/// Makes the shared object of this number, where it is not there yet.
pub fn make_shared<'a>(
    alloc: Global,
    app: &App,
    lists: &'a Lists,
    heap: &mut Heap<'a>,
    statics: &mut Values,
    number: u32,
) -> Result<(), Memory>
    requires sound { SoundApp app.now }
    requires few { number < 65536 }
    ensures { OnOk result ((heap_of heap.new, held_at statics.new)
        ≡ with_shared app.now lists.entry.now (number ∷ []) (heap_of heap.old) (held_at statics.old)) }
{
    let place = shared_static(app, number);
    match statics.get(place).place {
        Some(_there) => Ok(()),
        None => {
            make(alloc, heap, statics, place, class_of(lists, number))?;
            Ok(())
        }
    }
}

/// Makes an object of the class, where there is one, and puts it into the static.
fn make<'a>(
    alloc: Global,
    heap: &mut Heap<'a>,
    statics: &mut Values,
    place: u32,
    class: Option<&'a Name>,
) -> Result<(), Memory>
    ensures { OnOk result ((heap_of heap.new, held_at statics.new)
        ≡ made_shared (option_copied class.entry) place (heap_of heap.old) (held_at statics.old)) }
{
    match class {
        None => Ok(()),
        Some(class) => {
            let made = heap.add(Entity::new(alloc, class, Vec::new(alloc)))?;
            statics.set(place, Held::object_at(Some(made)))?;
            Ok(())
        }
    }
}

/// The number of the static of the shared object.
pub fn shared_static(app: &App, number: u32) -> u32
    requires sound { SoundApp app.now }
    requires few { number < 65536 }
    ensures { result ≡ shared_static app.now number }
{
    app.statics.len() as u32 + number
}

/// The class of the shared object.
#[tactic(auto, unfolding(app_machine::specs::Library::shared_class))]
fn class_of(lists: &Lists, number: u32) -> Option<&Name>
    ensures { option_copied result ≡ shared_class lists.now number }
{
    match lists.shared.get(number as usize) {
        Some(shared) => Some(&shared.1),
        None => None,
    }
}
