//! A disk in memory that tells nothing, so that a keeper over it takes whatever change it is asked to make.
ghost use Rattle.std.specs.Prelude.{◌≡◌, None, Err};
ghost use Rattle.disks.specs.Disks.{DiskCause};

use disks::{Disk, DiskCall, DiskFault, MemDisk};
use std::alloc::Global;

#[derive(Drop)]
pub(crate) struct Quiet {
    disk: MemDisk,
    faults: u64,
}

impl Quiet {
    /// A disk with these bytes that fails at the calls of these numbers.
    pub(crate) fn new(alloc: Global, bytes: &[u8], failing: &[u64]) -> Result<Quiet, DiskFault> {
        let bytes = bytes.to_vec(alloc)?;
        let failing = failing.to_vec(alloc)?;
        Ok(Quiet {
            disk: MemDisk::new(alloc, bytes, failing),
            faults: 0,
        })
    }

    pub(crate) fn bytes(&self) -> &[u8] {
        self.disk.bytes()
    }

    pub(crate) fn calls(&self) -> &[DiskCall] {
        self.disk.calls()
    }
}

/// The same fault, counted where it is a failure.
fn counted(faults: &mut u64, fault: DiskFault) -> DiskFault
    ensures { DiskCause {X = Unit {0}} faults.old faults.new (Err result) }
{
    match fault {
        DiskFault::Failed => {
            *faults = faults.saturating_add(1);
            DiskFault::Failed
        }
        DiskFault::Memory => DiskFault::Memory,
    }
}

impl Disk for Quiet {
    ghost told = { λ _. None };

    ghost fault_count = { λ d. d.faults };

    fn len(&mut self) -> Result<u64, DiskFault> {
        match self.disk.len() {
            Ok(len) => Ok(len),
            Err(fault) => Err(counted(&mut self.faults, fault)),
        }
    }

    fn read(&mut self, at: u64, room: &mut [u8]) -> Result<usize, DiskFault> {
        match self.disk.read(at, room) {
            Ok(count) => Ok(count),
            Err(fault) => Err(counted(&mut self.faults, fault)),
        }
    }

    fn write_at(&mut self, at: u64, bytes: &[u8]) -> Result<(), DiskFault> {
        if at > self.disk.bytes().len() as u64 {
            return Err(counted(&mut self.faults, DiskFault::Failed));
        }
        match self.disk.write_at(at, bytes) {
            Ok(()) => Ok(()),
            Err(fault) => Err(counted(&mut self.faults, fault)),
        }
    }

    fn cut(&mut self, len: u64) -> Result<(), DiskFault> {
        if len > self.disk.bytes().len() as u64 {
            return Err(counted(&mut self.faults, DiskFault::Failed));
        }
        match self.disk.cut(len) {
            Ok(()) => Ok(()),
            Err(fault) => Err(counted(&mut self.faults, fault)),
        }
    }

    fn sync(&mut self) -> Result<(), DiskFault> {
        match self.disk.sync() {
            Ok(()) => Ok(()),
            Err(fault) => Err(counted(&mut self.faults, fault)),
        }
    }

    fn faults(&self) -> u64 {
        self.faults
    }
}
