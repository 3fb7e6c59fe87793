ghost use Rattle.std.specs.Prelude.{◌≡◌, ◌≤◌, [], Some, length, IfOk, IfSome, OnErr};
ghost use Rattle.disks.specs.Disks.{DiskCause, Measures, Reaches, Gives, Writes, Cuts, Syncs, solid};
ghost use Rattle.disks.specs.Memory.{told_by, fails_next, FailsAsListed, Notes};
ghost use Rattle.disks.specs.declared.calls.DiskCall.TheVariants as asked;

use crate::calls::{ended, is_listed, write_of};
use crate::shot::{Shot, advance, cut_to, written_over};
use crate::{Disk, DiskCall, DiskFault};
use std::alloc::Global;
use std::marker::Model;

/// A disk in memory. It tells each moment, keeps a list of its calls, and fails at the calls whose numbers it was
/// given. It holds its bytes at each moment, so it is for tests.
#[derive(Drop)]
pub struct MemDisk {
    alloc: Global,
    present: Shot,
    past: Vec<Shot>,
    failing: Vec<u64>,
    calls: Vec<DiskCall>,
    faults: u64,
}

impl Model for MemDisk {
    ghost use Rattle.std.specs.Prelude.{map};
    ghost use Rattle.disks.specs.Memory.{MemState, moment_of};

    ghost Value = { MemState };

    ghost view = { λ m. record {
      present = moment_of m.present;
      past = map moment_of m.past.items;
      failing = m.failing.items;
      calls = m.calls.items;
      faults = m.faults;
    } };
}

impl MemDisk {
    /// A disk with these bytes, all of which are there to stay. Its calls but `faults` are numbered from 1, and the
    /// n-th fails exactly where n is in `failing`: a write or a cut that fails so leaves the bytes that a read gives
    /// as they are, and a crash may leave others. A call that wanted memory has no number and is not in the list.
    pub fn new(alloc: Global, bytes: Vec<u8>, failing: Vec<u64>) -> Self
        ensures { result ≡ record {
          present = solid bytes.items;
          past = [];
          failing = failing.items;
          calls = [];
          faults = 0;
        } }
    {
        let len = bytes.len() as u64;
        let present = Shot {
            bytes,
            least: len,
            most: len,
            loose: Vec::new(alloc),
        };
        MemDisk {
            alloc,
            present,
            past: Vec::new(alloc),
            failing,
            calls: Vec::new(alloc),
            faults: 0,
        }
    }

    /// The bytes that a read gives.
    pub fn bytes(&self) -> &[u8]
        ensures { result.now ≡ self.now.present.bytes }
    {
        &self.present.bytes
    }

    /// The calls so far, the first one first.
    pub fn calls(&self) -> &[DiskCall]
        ensures { result.now ≡ self.now.calls }
    {
        &self.calls
    }
}

/// Reads from an offset on into the front of the room.
fn filled(bytes: &[u8], at: u64, room: &mut [u8]) -> usize
    ensures { Gives bytes.now at result room.old room.new }
{
    let len = bytes.len() as u64;
    if at >= len {
        return 0;
    }
    let rest = &bytes[at as usize..];
    let count = rest.len().min(room.len());
    room[..count].copy_from_slice(&rest[..count]);
    count
}

impl Disk for MemDisk {
    ghost told = { λ m. Some (told_by m) };

    ghost fault_count = { λ m. m.faults };

    fn len(&mut self) -> Result<u64, DiskFault>
        ensures answer { IfOk result (λ n. IfSome (Some (told_by self.old)) (Measures n)) }
        ensures told { Some (told_by self.new) ≡ Some (told_by self.old) }
        ensures cause { DiskCause self.old.faults self.new.faults result }
        ensures numbered { FailsAsListed (fails_next self.old) result }
        ensures noted { Notes asked.Len self.old self.new result }
    {
        let listed = is_listed(&self.failing, &self.calls);
        self.calls.push(DiskCall::Len)?;
        ended(&mut self.faults, listed)?;
        Ok(self.present.bytes.len() as u64)
    }

    fn read(&mut self, at: u64, room: &mut [u8]) -> Result<usize, DiskFault>
        ensures within { IfOk result (λ n. n ≤ length room.old) }
        ensures answer { IfOk result (λ n. IfSome (Some (told_by self.old))
            (λ t. Gives t.now.bytes at n room.old room.new)) }
        ensures told { Some (told_by self.new) ≡ Some (told_by self.old) }
        ensures cause { DiskCause self.old.faults self.new.faults result }
        ensures numbered { FailsAsListed (fails_next self.old) result }
        ensures noted { Notes (asked.Read at (length room.old)) self.old self.new result }
    {
        let listed = is_listed(&self.failing, &self.calls);
        self.calls.push(DiskCall::Read(at, room.len()))?;
        ended(&mut self.faults, listed)?;
        Ok(filled(&self.present.bytes, at, room))
    }

    fn write_at(&mut self, at: u64, bytes: &[u8]) -> Result<(), DiskFault>
        requires { IfSome (Some (told_by self.now)) (Reaches at) }
        ensures told { Writes (Some (told_by self.old)) (Some (told_by self.new)) at bytes.now result }
        ensures cause { DiskCause self.old.faults self.new.faults result }
        ensures numbered { FailsAsListed (fails_next self.old) result }
        ensures noted { Notes (asked.Write at bytes.now) self.old self.new result }
        ensures not_written { OnErr result (self.new.present.bytes ≡ self.old.present.bytes) }
    {
        let listed = is_listed(&self.failing, &self.calls);
        let call = write_of(self.alloc, at, bytes)?;
        let next = written_over(self.alloc, &self.present.bytes, at as usize, bytes, listed)?;
        let next = self
            .present
            .wrote(self.alloc, at, bytes.len() as u64, next)?;
        advance(
            &mut self.present,
            &mut self.past,
            &mut self.calls,
            call,
            next,
        )?;
        ended(&mut self.faults, listed)
    }

    fn cut(&mut self, len: u64) -> Result<(), DiskFault>
        requires { IfSome (Some (told_by self.now)) (Reaches len) }
        ensures told { Cuts (Some (told_by self.old)) (Some (told_by self.new)) len result }
        ensures cause { DiskCause self.old.faults self.new.faults result }
        ensures numbered { FailsAsListed (fails_next self.old) result }
        ensures noted { Notes (asked.Cut len) self.old self.new result }
        ensures not_cut { OnErr result (self.new.present.bytes ≡ self.old.present.bytes) }
    {
        let listed = is_listed(&self.failing, &self.calls);
        let next = cut_to(self.alloc, &self.present.bytes, len as usize, listed)?;
        let next = self.present.shortened(self.alloc, len, next)?;
        advance(
            &mut self.present,
            &mut self.past,
            &mut self.calls,
            DiskCall::Cut(len),
            next,
        )?;
        ended(&mut self.faults, listed)
    }

    fn sync(&mut self) -> Result<(), DiskFault>
        ensures told { Syncs (Some (told_by self.old)) (Some (told_by self.new)) result }
        ensures cause { DiskCause self.old.faults self.new.faults result }
        ensures numbered { FailsAsListed (fails_next self.old) result }
        ensures noted { Notes asked.Sync self.old self.new result }
    {
        if is_listed(&self.failing, &self.calls) {
            self.calls.push(DiskCall::Sync)?;
            return ended(&mut self.faults, true);
        }
        let next = self.present.synced(self.alloc)?;
        advance(
            &mut self.present,
            &mut self.past,
            &mut self.calls,
            DiskCall::Sync,
            next,
        )
    }

    fn faults(&self) -> u64 {
        self.faults
    }
}
