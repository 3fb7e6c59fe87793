ghost use Rattle.std.specs.Prelude.{◌≡◌, ◌++◌, ◌<◌, ℕ, List, IfOk, IfSome, OnOk, Some, length, map, slice_get};
ghost use Rattle.app_machine.specs.declared.app.App.{App as AnApp};
ghost use Rattle.app_machine.specs.declared.lists.Lists.{Lists as TheLists};
ghost use Rattle.app_machine.specs.Names.{Name as AName};
ghost use Rattle.app_machine.specs.Sound.{SoundApp};
ghost use Rattle.played_growth.specs.Growth.{classes_of};
ghost use Rattle.runner_below.specs.Below.{below_among};
ghost use Rattle.runner_below.specs.Kept.{AreBelow, BelowsStay, HasKind, places_at};
ghost use Rattle.runner_heap.specs.Objects.{heap_of};

use crate::below::Below;
use event_index::EventIndex;
use runner_heap::Heap;
use std::alloc::Global;
use std::collections::BTreeMap;
use vet_base::{Memory, Name};

/// Per type the handed places whose objects are below it.
#[derive(Drop)]
pub struct Belows<'a> {
    all: Vec<Below<'a>>,
    /// Where a type stands among them. No answer rests on it: what stands there is compared.
    numbers: BTreeMap<Name, usize>,
}

impl<'a> Belows<'a> {
    /// No type was asked for.
    pub fn new(alloc: Global) -> Belows<'a>
        ensures { (app : AnApp) (lists : TheLists) (classes : List AName) (handed : List ℕ) →
            AreBelow app lists classes handed result }
    {
        Belows {
            all: Vec::new(alloc),
            numbers: BTreeMap::new(alloc),
        }
    }

    /// Looks for the type at the places that were handed since it was last asked for, and gives its number. Behind the
    /// heap objects of further classes are to come.
    pub fn catch_up<'b>(
        &mut self,
        alloc: Global,
        index: &EventIndex,
        heap: &Heap<'b>,
        fresh: &[&'b Name],
        handed: &[u32],
        kind: &'a Name,
    ) -> Result<usize, Memory>
        requires app { SoundApp index.now.0 }
        requires fits { AreBelow index.now.0 index.now.1 (classes_of (heap_of heap.now)) handed.now self.old }
        ensures fits { OnOk result (AreBelow index.now.0 index.now.1 (classes_of (heap_of heap.now)) handed.now
            self.new) }
        ensures places { IfOk result (λ n. places_at self.new n ≡ below_among index.now.0 index.now.1
            (classes_of (heap_of heap.now) ++ map (λ c. c.now) fresh.now) handed.now kind.entry.now) }
    {
        let number = self.number(alloc, kind)?;
        let below = &mut self.all[number];
        below.catch_up(index, heap, fresh, handed)?;
        Ok(number)
    }

    /// The places of the type of this number.
    pub fn places(&self, number: usize) -> &[u32]
        ensures { result.now ≡ places_at self.now number }
    {
        match self.all.get(number) {
            Some(below) => below.places.as_slice(),
            None => &[],
        }
    }

    /// The number of the type, which gets one where it has none.
    fn number(&mut self, alloc: Global, kind: &'a Name) -> Result<usize, Memory>
        ensures kind { IfOk result (HasKind self.new kind.entry.now) }
        ensures fits { (app : AnApp) (lists : TheLists) (classes : List AName) (handed : List ℕ) →
            AreBelow app lists classes handed self.old → AreBelow app lists classes handed self.new }
    {
        match self.known(kind) {
            Some(number) => Ok(number),
            None => self.add(alloc, kind),
        }
    }

    /// The number of the type, where it is known.
    fn known(&self, kind: &Name) -> Option<usize>
        ensures { IfSome result (HasKind self.now kind.now) }
    {
        match self.numbers.get(kind) {
            Some(number) => self.if_of(*number, kind),
            None => None,
        }
    }

    /// The number, where it is that of the type.
    fn if_of(&self, number: usize, kind: &Name) -> Option<usize>
        ensures { IfSome result (HasKind self.now kind.now) }
    {
        match self.all.get(number) {
            Some(below) => {
                if below.kind == kind {
                    Some(number)
                } else {
                    None
                }
            }
            None => None,
        }
    }

    /// Gives the type a number.
    fn add(&mut self, alloc: Global, kind: &'a Name) -> Result<usize, Memory>
        ensures kind { IfOk result (HasKind self.new kind.entry.now) }
        ensures fits { (app : AnApp) (lists : TheLists) (classes : List AName) (handed : List ℕ) →
            AreBelow app lists classes handed self.old → AreBelow app lists classes handed self.new }
    {
        let number = self.all.len();
        self.all.push(Below::new(alloc, kind))?;
        self.numbers.insert(kind.copy()?, number)?;
        Ok(number)
    }
}

/// What is known stays true while objects and handed places are added.
pub fn belows_stay()
    ensures { BelowsStay }
{}
