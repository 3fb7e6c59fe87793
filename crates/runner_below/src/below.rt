ghost use Rattle.std.specs.Prelude.{◌≡◌, ◌++◌, OnOk, map};
ghost use Rattle.app_machine.specs.Sound.{SoundApp};
ghost use Rattle.played_growth.specs.Growth.{classes_of};
ghost use Rattle.runner_heap.specs.Objects.{heap_of};

use crate::looking::{add_rest, look};
use event_index::EventIndex;
use runner_heap::Heap;
use std::alloc::Global;
use vet_base::{Memory, Name};

/// Handed places whose objects are below a type.
#[derive(Drop)]
pub struct Below<'a> {
    pub kind: &'a Name,
    /// How many handed places were looked at for good: each of them has an object.
    seen: usize,
    /// How many of the places are among those.
    kept: usize,
    /// All that there were when the type was last asked for.
    pub places: Vec<u32>,
}

impl<'a> Below<'a> {
    ghost use Rattle.std.specs.Prelude.{ℕ, List};
    ghost use Rattle.app_machine.specs.declared.app.App.{App as AnApp};
    ghost use Rattle.app_machine.specs.declared.lists.Lists.{Lists as TheLists};
    ghost use Rattle.app_machine.specs.Names.{Name as AName};
    ghost use Rattle.runner_below.specs.Below.{below_among};
    ghost use Rattle.runner_below.specs.Kept.{IsBelow};

    /// No place was looked at.
    pub fn new(alloc: Global, kind: &'a Name) -> Below<'a>
        ensures kind { result.kind.now ≡ kind.now }
        ensures fits { (app : AnApp) (lists : TheLists) (classes : List AName) (handed : List ℕ) →
            IsBelow app lists classes handed result }
    {
        Below {
            kind,
            seen: 0,
            kept: 0,
            places: Vec::new(alloc),
        }
    }

    /// Looks at the places that were handed since, and anew at those without an object.
    pub fn catch_up<'b>(
        &mut self,
        index: &EventIndex,
        heap: &Heap<'b>,
        fresh: &[&'b Name],
        handed: &[u32],
    ) -> Result<(), Memory>
        requires app { SoundApp index.now.0 }
        requires fits { IsBelow index.now.0 index.now.1 (classes_of (heap_of heap.now)) handed.now self.old }
        ensures fits { OnOk result (IsBelow index.now.0 index.now.1 (classes_of (heap_of heap.now)) handed.now
            self.new) }
        ensures places { OnOk result (self.new.places.items ≡ below_among index.now.0 index.now.1
            (classes_of (heap_of heap.now) ++ map (λ c. c.now) fresh.now) handed.now self.old.kind.now) }
    {
        self.places.truncate(self.kept);
        let seen = look(&mut self.places, index, heap, self.kind, handed, self.seen)?;
        self.seen = seen;
        self.kept = self.places.len();
        add_rest(
            &mut self.places,
            index,
            heap,
            fresh,
            self.kind,
            handed,
            seen,
        )?;
        Ok(())
    }
}
