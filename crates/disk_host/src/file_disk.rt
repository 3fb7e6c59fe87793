ghost use Rattle.std.specs.Prelude.{◌≡◌, ◌≤◌, false, length, IfOk, IfSome};
ghost use Rattle.disks.specs.Disks.{DiskCause, Measures, Reaches, Gives, Writes, Cuts, Syncs};
ghost use Rattle.disk_host.specs.Files.{told_of, Loses};
ghost use Rattle.vet_base.specs.Outside.{HasRisen};

use crate::opening::{cut_at, length_of, read_at, sync_of, write_at};
use disks::{Disk, DiskFault};
use std::fs::File;

/// The file at a path as a disk. It is opened at the first call, and is not made; where opening is refused, the next
/// call tries again. It tells nothing of what it holds.
///
/// Once a sync failed, each later one fails too: the system may have forgotten what it could not write, and would then
/// say of lost bytes that they are there to stay.
#[derive(Drop)]
pub struct FileDisk {
    rt: HostRuntime,
    path: String,
    file: Option<File>,
    lost: bool,
    faults: u64,
}

impl FileDisk {
    /// A disk over the file at a path. It opens nothing.
    pub fn new(rt: HostRuntime, path: String) -> FileDisk
        ensures counted { result.faults ≡ 0 }
        ensures none_lost { result.lost ≡ false }
    {
        FileDisk {
            rt,
            path,
            file: None,
            lost: false,
            faults: 0,
        }
    }
}

/// Counts a failure.
fn failed(faults: &mut u64) -> DiskFault
    ensures fault { result ≡ DiskFault.Failed }
    ensures risen { HasRisen faults.old faults.new }
    ensures never_falls { faults.old ≤ faults.new }
{
    *faults = faults.saturating_add(1);
    DiskFault::Failed
}

impl Disk for FileDisk {
    ghost told = { told_of };

    ghost fault_count = { λ d. d.faults };

    fn len(&mut self) -> Result<u64, DiskFault>
        ensures answer { IfOk result (λ n. IfSome (told_of self.old) (Measures n)) }
        ensures told { told_of self.new ≡ told_of self.old }
        ensures cause { DiskCause self.old.faults self.new.faults result }
        ensures lost { self.new.lost ≡ self.old.lost }
    {
        match length_of(&self.rt, self.path.as_str(), &mut self.file) {
            Ok(len) => Ok(len),
            Err(_) => Err(failed(&mut self.faults)),
        }
    }

    fn read(&mut self, at: u64, room: &mut [u8]) -> Result<usize, DiskFault>
        ensures within { IfOk result (λ n. n ≤ length room.old) }
        ensures answer { IfOk result (λ n. IfSome (told_of self.old)
            (λ t. Gives t.now.bytes at n room.old room.new)) }
        ensures told { told_of self.new ≡ told_of self.old }
        ensures cause { DiskCause self.old.faults self.new.faults result }
        ensures lost { self.new.lost ≡ self.old.lost }
    {
        match read_at(&self.rt, self.path.as_str(), &mut self.file, at, room) {
            Ok(count) => Ok(count),
            Err(_) => Err(failed(&mut self.faults)),
        }
    }

    fn write_at(&mut self, at: u64, bytes: &[u8]) -> Result<(), DiskFault>
        requires { IfSome (told_of self.now) (Reaches at) }
        ensures told { Writes (told_of self.old) (told_of self.new) at bytes.now result }
        ensures cause { DiskCause self.old.faults self.new.faults result }
        ensures lost { self.new.lost ≡ self.old.lost }
    {
        match write_at(&self.rt, self.path.as_str(), &mut self.file, at, bytes) {
            Ok(()) => Ok(()),
            Err(_) => Err(failed(&mut self.faults)),
        }
    }

    fn cut(&mut self, len: u64) -> Result<(), DiskFault>
        requires { IfSome (told_of self.now) (Reaches len) }
        ensures told { Cuts (told_of self.old) (told_of self.new) len result }
        ensures cause { DiskCause self.old.faults self.new.faults result }
        ensures lost { self.new.lost ≡ self.old.lost }
    {
        match cut_at(&self.rt, self.path.as_str(), &mut self.file, len) {
            Ok(()) => Ok(()),
            Err(_) => Err(failed(&mut self.faults)),
        }
    }

    /// Once it failed it fails ever after.
    fn sync(&mut self) -> Result<(), DiskFault>
        ensures told { Syncs (told_of self.old) (told_of self.new) result }
        ensures cause { DiskCause self.old.faults self.new.faults result }
        ensures lost { Loses self.old.lost self.new.lost result }
    {
        if self.lost {
            return Err(failed(&mut self.faults));
        }
        match sync_of(&self.rt, self.path.as_str(), &mut self.file) {
            Ok(()) => Ok(()),
            Err(_) => {
                self.lost = true;
                Err(failed(&mut self.faults))
            }
        }
    }

    fn faults(&self) -> u64 {
        self.faults
    }
}
