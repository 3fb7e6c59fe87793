ghost use Rattle.std.specs.Prelude.{◌≡◌, ◌↔◌, [], ◌∷◌, IsTrue, OnOk, OnErr, reverse};
ghost use Rattle.app_machine.specs.Calls.{hand};
ghost use Rattle.played_machine.specs.Reading.{handed_places};
ghost use Rattle.vet_base.specs.Members.{In};

use std::alloc::Global;
use std::collections::BTreeSet;
use std::marker::Model;
use vet_base::Memory;

/// The places that the library was handed, each once, in the order in which they were handed first.
#[derive(Drop)]
pub struct Handed {
    places: Vec<u32>,
    there: BTreeSet<u32>,
}

impl Model for Handed {
    ghost use Rattle.std.specs.Prelude.{List, ℕ};
    ghost use Rattle.runner_world.specs.Places.{AreEachOnce};

    ghost Value = { List ℕ };

    ghost view = { λ h. h.places.items };

    ghost invariant = { λ h. AreEachOnce h.places.items h.there };
}

impl Handed {
    pub fn new(alloc: Global) -> Handed
        ensures { result ≡ [] }
    {
        Handed {
            places: Vec::new(alloc),
            there: BTreeSet::new(alloc),
        }
    }

    pub fn places(&self) -> &[u32]
        ensures same { result.now ≡ self.now }
        ensures places { result.now ≡ handed_places (reverse self.now) }
    {
        &self.places
    }

    /// Whether the place was handed.
    pub fn has(&self, place: u32) -> bool
        ensures { IsTrue result ↔ In place self.now }
    {
        self.there.contains(&place)
    }

    /// Hands the place, where there is one. After want of memory what was handed is as before.
    pub fn hand(&mut self, place: Option<u32>) -> Result<(), Memory>
        ensures ok { OnOk result (handed_places (reverse self.new) ≡ handed_places (hand place (reverse self.old))) }
        ensures err { OnErr result (self.new ≡ self.old) }
    {
        match place {
            None => Ok(()),
            Some(place) => self.hand_place(place),
        }
    }

    fn hand_place(&mut self, place: u32) -> Result<(), Memory>
        ensures ok { OnOk result (handed_places (reverse self.new) ≡ handed_places (place ∷ reverse self.old)) }
        ensures err { OnErr result (self.new ≡ self.old) }
    {
        if self.there.contains(&place) {
            return Ok(());
        }
        self.places.push(place)?;
        match self.there.insert(place) {
            Ok(_) => Ok(()),
            Err(_) => {
                let _last = self.places.pop();
                Err(Memory)
            }
        }
    }
}
