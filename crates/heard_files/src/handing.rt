ghost use Rattle.std.specs.Prelude.{◌≡◌, []};

use crate::{Handed, Sink};
use std::alloc::Global;
use vet_base::{PutFault, Sink as PlainSink};

/// A sink over any other, which remembers what was handed over.
#[derive(Drop)]
pub struct Handing<O: PlainSink + Drop> {
    sink: O,
    handed: Handed,
}

impl<O: PlainSink + Drop> Handing<O> {
    /// Nothing was handed over yet.
    pub fn over(sink: O) -> Self
        ensures sink { result.sink ≡ sink }
        ensures handed { result.handed ≡ [] }
    {
        Handing {
            sink,
            handed: Handed::new(),
        }
    }

    /// The sink itself.
    pub fn sink(&self) -> &O
        ensures { result.now ≡ self.now.sink }
    {
        &self.sink
    }
}

impl<O: PlainSink + Drop> Sink for Handing<O> {
    ghost taken = { λ h. O.taken h.sink };

    ghost fault_count = { λ h. O.fault_count h.sink };

    ghost handed = { λ h. h.handed };

    fn put(&mut self, alloc: Global, bytes: &[u8]) -> Result<(), PutFault> {
        match self.sink.put(alloc, bytes) {
            Ok(()) => {
                self.handed.add(bytes);
                Ok(())
            }
            Err(PutFault::Failed) => {
                self.handed.add(bytes);
                Err(PutFault::Failed)
            }
            Err(PutFault::Memory) => Err(PutFault::Memory),
        }
    }

    fn faults(&self) -> u64 {
        self.sink.faults()
    }
}
