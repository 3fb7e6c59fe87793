ghost use Rattle.std.specs.Prelude.{◌≡◌, ◌&&◌, ℕ, true, List, IfOk, OnOk, length, option_map, slice_get};
ghost use Rattle.app_machine.specs.declared.app.App.{App as AnApp};
ghost use Rattle.app_machine.specs.declared.lists.Lists.{Lists as SomeLists};
ghost use Rattle.app_machine.specs.Names.{Name as AName};
ghost use Rattle.app_machine.specs.Sound.{SoundApp};
ghost use Rattle.app_machine.specs.State.{World};
ghost use Rattle.runner_choices.specs.Choices.{event_of};
ghost use Rattle.runner_handed.specs.Menu.{Fits, HasAll, menu_in};
ghost use Rattle.played_growth.specs.Growth.{classes_of};
ghost use Rattle.runner_handed.specs.Reached.{reached_event};
ghost use Rattle.runner_heap.specs.Objects.{heap_of};

use crate::adding::{Reached, empty_rows};
use crate::catching::look_at;
use app_machine::Lists;
use event_index::EventIndex;
use runner_choices::{Choice, sum};
use runner_heap::Heap;
use std::alloc::Global;
use vet_base::Memory;

/// Of the first handed places those to which callbacks come, by callback row, and in each row in the order in
/// which they were handed.
#[derive(Drop)]
pub struct HandedMenu {
    rows: Vec<Vec<Reached>>,
    /// How many handed places were looked at.
    seen: usize,
    /// Whether each of them was that of an object. If not, all are looked at anew.
    whole: bool,
}

impl HandedMenu {
    /// A menu with so many callback rows that has looked at no place.
    pub fn new(alloc: Global, count: u32) -> Result<HandedMenu, Memory>
        ensures fits { IfOk result (λ menu. (app : AnApp) (lists : SomeLists) (classes : List AName) (handed : List ℕ) →
            count ≡ length lists.callbacks → Fits app lists classes handed menu) }
        ensures whole { IfOk result (λ menu. menu.whole ≡ true) }
    {
        let rows = empty_rows(alloc, count)?;
        Ok(HandedMenu {
            rows,
            seen: 0,
            whole: true,
        })
    }

    /// Looks at the places that were handed since.
    pub fn catch_up(
        &mut self,
        alloc: Global,
        index: &EventIndex,
        heap: &Heap,
        handed: &[u32],
    ) -> Result<(), Memory>
        requires sound { SoundApp index.now.0 }
        requires fits { Fits index.now.0 index.now.1 (classes_of (heap_of heap.now)) handed.now self.old }
        ensures fits { OnOk result (Fits index.now.0 index.now.1 (classes_of (heap_of heap.now)) handed.now self.new) }
        ensures all { OnOk result (HasAll index.now.0 index.now.1 (classes_of (heap_of heap.now)) handed.now self.new) }
    {
        if self.whole {
            return self.look_further(alloc, index, heap, handed);
        }
        *self = HandedMenu::new(alloc, index.callback_count())?;
        self.look_further(alloc, index, heap, handed)
    }

    fn look_further(
        &mut self,
        alloc: Global,
        index: &EventIndex,
        heap: &Heap,
        handed: &[u32],
    ) -> Result<(), Memory>
        requires sound { SoundApp index.now.0 }
        requires fits { Fits index.now.0 index.now.1 (classes_of (heap_of heap.now)) handed.now self.old }
        requires whole { self.old.whole ≡ true }
        ensures fits { OnOk result (Fits index.now.0 index.now.1 (classes_of (heap_of heap.now)) handed.now self.new) }
        ensures all { OnOk result (HasAll index.now.0 index.now.1 (classes_of (heap_of heap.now)) handed.now self.new) }
    {
        for i in self.seen..handed.len() {
            let is_object = look_at(alloc, index, heap, &mut self.rows, handed[i])?;
            let whole = both(self.whole, is_object);
            self.whole = whole;
        }
        self.seen = handed.len();
        Ok(())
    }

    /// How many callbacks may come.
    pub fn count(&self) -> Result<usize, Memory>
        ensures { IfOk result (λ count. (w : World) (lists : SomeLists) → count ≡ length (menu_in w lists self.now)) }
    {
        let mut count = 0;
        for row in 0..self.rows.len() {
            count = sum(count, self.rows[row].len())?;
        }
        Ok(count)
    }

    /// The callback of the index, by row and then by place.
    pub fn at<'a>(&self, lists: &'a Lists, index: usize) -> Option<Choice<'a>>
        ensures { (w : World) → option_map (event_of w) result ≡ slice_get (menu_in w lists.entry.now self.now) index }
    {
        let mut left = index;
        for row in 0..self.rows.len() {
            let places = self.rows[row].as_slice();
            if left < places.len() {
                return Some(called(lists, row, places[left]));
            }
            left -= places.len();
        }
        None
    }
}

fn both(one: bool, other: bool) -> bool
    ensures is { result ≡ (one && other) }
    ensures one { result ≡ true → one ≡ true }
    ensures other { result ≡ true → other ≡ true }
{
    one && other
}

/// The callback of the row on the object.
fn called<'a>(lists: &'a Lists, row: usize, reached: Reached) -> Choice<'a>
    ensures { (w : World) → event_of w result ≡ reached_event w lists.entry.now row reached }
{
    match lists.callbacks.get(row) {
        Some(callback) => Choice::Called(
            Some(reached.place),
            callback.sources.as_slice(),
            reached.body,
        ),
        None => Choice::Called(Some(reached.place), &[], reached.body),
    }
}
