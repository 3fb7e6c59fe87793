ghost use Rattle.std.specs.Prelude.{◌≡◌, Some, [], OnErr};
ghost use Rattle.vet_base.specs.Outside.{PutsBytes, PutCause};
ghost use Rattle.vet_base.specs.MemorySink.{fails_next, FailsAsNumbered, CountsCall};

use crate::{PutFault, Sink};
use std::alloc::Global;
use std::marker::Model;

/// A sink in memory. It tells what it took, and fails at the calls whose numbers it was given.
#[derive(Drop)]
pub struct MemSink {
    taken: Vec<u8>,
    failing: Vec<u64>,
    calls: u64,
    faults: u64,
}

impl Model for MemSink {
    ghost use Rattle.vet_base.specs.MemorySink.{Taker};

    ghost Value = { Taker };

    ghost view = { λ m. record {
      taken = m.taken.items;
      failing = m.failing.items;
      calls = m.calls;
      faults = m.faults;
    } };
}

impl MemSink {
    /// A sink that took nothing yet. The calls are numbered from 1, and the n-th fails where n is in `failing`,
    /// having taken nothing.
    pub fn new(alloc: Global, failing: Vec<u64>) -> Self
        ensures { result ≡ record { taken = []; failing = failing.items; calls = 0; faults = 0 } }
    {
        MemSink {
            taken: Vec::new(alloc),
            failing,
            calls: 0,
            faults: 0,
        }
    }

    /// The bytes taken so far.
    pub fn taken(&self) -> &[u8]
        ensures { result.now ≡ self.now.taken }
    {
        &self.taken
    }
}

impl Sink for MemSink {
    ghost taken = { λ m. Some m.taken };

    ghost fault_count = { λ m. m.faults };

    fn put(&mut self, _alloc: Global, bytes: &[u8]) -> Result<(), PutFault>
        ensures taken { PutsBytes (Some self.old.taken) (Some self.new.taken) bytes.now result }
        ensures cause { PutCause self.old.faults self.new.faults result }
        ensures numbered { FailsAsNumbered (fails_next self.old) result }
        ensures nothing_taken { OnErr result (self.new.taken ≡ self.old.taken) }
        ensures counted { CountsCall self.old self.new }
    {
        self.calls = self.calls.saturating_add(1);
        if self.failing.contains(&self.calls) {
            self.faults = self.faults.saturating_add(1);
            return Err(PutFault::Failed);
        }
        self.taken.extend_from_slice(bytes)?;
        Ok(())
    }

    fn faults(&self) -> u64 {
        self.faults
    }
}
