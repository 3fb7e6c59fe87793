//! The adapters to the system: a few lines each, which tell nothing of content and count their failures.

ghost use Rattle.std.specs.Prelude.{◌≡◌, None};

use std::alloc::Global;
use std::fs::File;
use std::io::{ErrorKind, Read};
use std::rt::Files as SystemFiles;
use std::{fs, io};
use vet_base::{FileFault, Files, PutFault, Sink};

/// The files of the system.
#[derive(Drop)]
pub struct HostFiles<R: SystemFiles + AllocGlobal + Drop> {
    rt: R,
    faults: u64,
}

impl<R: SystemFiles + AllocGlobal + Drop> HostFiles<R> {
    /// The files that this runtime reaches. No call of them failed yet.
    pub fn new(rt: R) -> Self
        ensures { result.faults ≡ 0 }
    {
        HostFiles { rt, faults: 0 }
    }
}

fn read_within<R: SystemFiles>(
    rt: &R,
    alloc: Global,
    name: &str,
    limit: u64,
) -> io::Result<Vec<u8>> {
    let mut bytes = Vec::new(alloc);
    File::open(rt, name)?
        .take(limit.saturating_add(1))
        .read_to_end(&mut bytes)?;
    Ok(bytes)
}

impl<R: SystemFiles + AllocGlobal + Drop> Files for HostFiles<R> {
    ghost told = { λ _. None };

    ghost fault_count = { λ h. h.faults };

    fn read(&mut self, alloc: Global, name: &str, limit: u64) -> Result<Vec<u8>, FileFault> {
        match read_within(&self.rt, alloc, name, limit) {
            Ok(bytes) if bytes.len() as u64 > limit => Err(FileFault::TooLong),
            Ok(bytes) => Ok(bytes),
            Err(e) => match e.kind() {
                ErrorKind::NotFound | ErrorKind::NotADirectory => Err(FileFault::Absent),
                ErrorKind::OutOfMemory => Err(FileFault::Memory),
                _ => {
                    self.faults = self.faults.saturating_add(1);
                    Err(FileFault::Failed)
                }
            },
        }
    }

    fn write(&mut self, _alloc: Global, name: &str, bytes: &[u8]) -> Result<(), FileFault> {
        match fs::write(&self.rt, name, bytes) {
            Ok(()) => Ok(()),
            Err(_) => {
                self.faults = self.faults.saturating_add(1);
                Err(FileFault::Failed)
            }
        }
    }

    fn faults(&self) -> u64 {
        self.faults
    }
}

/// The standard output.
#[derive(Drop)]
pub struct StandardSink<R: Print + Drop> {
    rt: R,
    faults: u64,
}

impl<R: Print + Drop> StandardSink<R> {
    /// The output of this runtime. No call of it failed yet.
    pub fn new(rt: R) -> Self
        ensures { result.faults ≡ 0 }
    {
        StandardSink { rt, faults: 0 }
    }
}

impl<R: Print + Drop> Sink for StandardSink<R> {
    ghost taken = { λ _. None };

    ghost fault_count = { λ s. s.faults };

    fn put(&mut self, _alloc: Global, bytes: &[u8]) -> Result<(), PutFault> {
        match self.rt.write_all(bytes) {
            Ok(()) => Ok(()),
            Err(_) => {
                self.faults = self.faults.saturating_add(1);
                Err(PutFault::Failed)
            }
        }
    }

    fn faults(&self) -> u64 {
        self.faults
    }
}
