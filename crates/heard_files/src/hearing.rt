ghost use Rattle.std.specs.Prelude.{◌≡◌, []};

use crate::{Files, Heard};
use std::alloc::Global;
use vet_base::{FileFault, Files as PlainFiles};

/// Files over any others, which remember what each read gave.
#[derive(Drop)]
pub struct Hearing<F: PlainFiles + Drop> {
    files: F,
    heard: Heard,
}

impl<F: PlainFiles + Drop> Hearing<F> {
    /// Nothing was read yet.
    pub fn over(files: F) -> Self
        ensures files { result.files ≡ files }
        ensures heard { result.heard ≡ [] }
    {
        Hearing {
            files,
            heard: Heard::new(),
        }
    }

    /// The files themselves.
    pub fn files(&self) -> &F
        ensures { result.now ≡ self.now.files }
    {
        &self.files
    }
}

impl<F: PlainFiles + Drop> Files for Hearing<F> {
    ghost told = { λ h. F.told h.files };

    ghost fault_count = { λ h. F.fault_count h.files };

    ghost heard = { λ h. h.heard };

    fn read(&mut self, alloc: Global, name: &str, limit: u64) -> Result<Vec<u8>, FileFault> {
        let answer = self.files.read(alloc, name, limit);
        self.heard.add(name, limit, &answer);
        answer
    }

    fn write(&mut self, alloc: Global, name: &str, bytes: &[u8]) -> Result<(), FileFault> {
        self.files.write(alloc, name, bytes)
    }

    fn faults(&self) -> u64 {
        self.files.faults()
    }
}
