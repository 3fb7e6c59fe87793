ghost use Rattle.std.specs.Prelude.{◌≡◌, ◌↔◌, ℕ, IfOk};
ghost use Rattle.app_machine.specs.Sound.{SoundApp};
ghost use Rattle.cell_rules.specs.Reading.{ReadAt};
ghost use Rattle.vet_base.specs.Members.{In};
ghost use Rattle.register_readers.specs.Asked.{IsAsked};
ghost use Rattle.register_readers.specs.Found.{places_of, places_of_all};
ghost use Rattle.register_readers.specs.Readings.{AreFew, AreReaders, listed, listed_in, readers_from};

use crate::finding::{Found, found_in_all};
use crate::places::Place;
use app_machine::App;
use std::alloc::Global;
use std::marker::Model;
use vet_base::Memory;

/// An app, and for each place at which rules ask the steps that read the register there. Contracts see the app,
/// and what the index tells.
#[derive(Drop)]
pub struct RegisterReaders<'a> {
    app: &'a App,
    methods: Vec<Found>,
}

impl<'a> Model for RegisterReaders<'a> {
    ghost use Rattle.register_readers.specs.Readings.{Readings};
    ghost use Rattle.register_readers.specs.Found.{AreIndexed, places_of_all};

    ghost Value = { Readings };

    ghost view = { λ x. record { app = x.app.now; methods = places_of_all x.methods.items } };

    ghost invariant = { λ x. AreIndexed x.app.now x.methods.items };
}

impl<'a> RegisterReaders<'a> {
    /// The index of the app. Of a place it lists at most 2^14 readers, and of all at most 2^24: they are counted
    /// before they are listed, and past either number memory is said to be wanting.
    #[tactic(auto, using(crate::proofs::Indexing::are_readers))]
    pub fn of(alloc: Global, app: &'a App) -> Result<RegisterReaders<'a>, Memory>
        requires { SoundApp app.now }
        ensures app { IfOk result (λ readers. readers.app ≡ app.now) }
        ensures exact { IfOk result (λ readers. AreReaders readers) }
        ensures few { IfOk result (λ readers. AreFew readers) }
    {
        let methods = found_in_all(alloc, app)?;
        Ok(RegisterReaders { app, methods })
    }

    /// The app itself.
    pub fn app(&self) -> &App
        ensures { result.now ≡ self.now.app }
    {
        self.app
    }

    /// The addresses of the steps that read what stands in the register of the method at the address. Where no
    /// rule asks there may be none. It takes no memory.
    pub fn readers(&self, method: u32, register: u32, pc: u32) -> &[u32]
        ensures same { result.now ≡ readers_from self.now method register pc }
        ensures exact { IsAsked self.now.app method register pc → (u : ℕ) → In u result.now ↔ ReadAt self.now.app
            method register pc u }
    {
        readers_in(&self.methods, method, register, pc)
    }
}

/// Those of the methods at the place of the register and the address.
#[tactic(auto, using(crate::proofs::Indexing::method_told, crate::proofs::Indexing::method_untold))]
fn readers_in(methods: &[Found], method: u32, register: u32, pc: u32) -> &[u32]
    ensures { result.now ≡ listed_in (places_of_all methods.now) method register pc }
{
    match methods.get(method as usize) {
        None => &[],
        Some(found) => readers_at(found, register, pc),
    }
}

/// Those of one method.
#[tactic(auto, using(crate::proofs::Indexing::told_at, crate::proofs::Indexing::told_none))]
fn readers_at(found: &Found, register: u32, pc: u32) -> &[u32]
    ensures { result.now ≡ listed (places_of found.now) register pc }
{
    match found.get(&Place { register, pc }) {
        None => &[],
        Some(readers) => readers.as_slice(),
    }
}
