ghost use Rattle.std.specs.Prelude.{◌≡◌, ◌<◌, ◌+◌, ◌++◌, length, OnOk, OnErr, IfSome};
ghost use Rattle.std.specs.Option.{option_map};
ghost use Rattle.disks.specs.Disks.{DiskCause};
ghost use Rattle.gated_log.specs.Format.{record_bytes};

use crate::staging::staged;
use crate::staying::{cut_to_stay, write_to_stay};
use disks::{Disk, DiskFault};
use std::alloc::Global;

/// How the end of a log stands: what is to be mended before another record is added.
#[derive(Clone, Copy)]
pub enum Gate {
    /// A closed gate is the last byte.
    Closed,
    /// Bytes may stand behind the closed gate.
    Behind,
    /// It was begun to open the gate: it may be open or closed, or be another byte.
    Touched,
}

/// Where a log ends: the offset of the gate behind the last record that counts.
#[derive(Clone, Copy)]
pub struct Log {
    pub end: u64,
    pub gate: Gate,
}

impl Log {
    ghost use Rattle.gated_log.specs.Ends.{Stands, front_of, LeavesEither, LeavesLast};
    ghost use Rattle.gated_log.specs.Last.{LastIs, KeepsLast};

    /// Adds a record with this payload. From Ok on it stays. After a fault the log ends where it did, and its gate says
    /// what is to be mended; behind one that was touched stands this record and no other. At every moment a crash
    /// leaves what was there, with the record or without. A log of 2^64 bytes or more is want of memory.
    pub fn append<D: Disk>(
        &mut self,
        alloc: Global,
        disk: &mut D,
        payload: &[u8],
    ) -> Result<(), DiskFault>
        requires closed { self.old.gate ≡ Gate.Closed }
        requires stands { IfSome (D.told disk.old) (Stands self.old) }
        requires room { self.old.end < 18446744073709551615 }
        ensures stands { IfSome (D.told disk.new) (Stands self.new) }
        ensures closed { OnOk result (self.new.gate ≡ Gate.Closed) }
        ensures longer { OnOk result (self.new.end ≡ self.old.end + length (record_bytes payload.now)) }
        ensures added { OnOk result (front_of self.new (D.told disk.new)
            ≡ option_map (λ front. front ++ record_bytes payload.now) (front_of self.old (D.told disk.old))) }
        ensures as_long { OnErr result (self.new.end ≡ self.old.end) }
        ensures kept { OnErr result (front_of self.new (D.told disk.new) ≡ front_of self.old (D.told disk.old)) }
        ensures last { IfSome (D.told disk.new) (LastIs payload.now self.new) }
        ensures any_moment { LeavesEither self.old.end payload.now (D.told disk.old) (D.told disk.new) }
        ensures cause { DiskCause (D.fault_count disk.old) (D.fault_count disk.new) result }
        ensures room { self.new.end < 18446744073709551615 }
    {
        let bytes = staged(alloc, payload)?;
        let count = payload.len() as u64 + 9;
        if u64::MAX - self.end <= count {
            return Err(DiskFault::Memory);
        }
        self.gate = Gate::Behind;
        write_to_stay(disk, self.end + 1, &bytes)?;
        self.gate = Gate::Touched;
        write_to_stay(disk, self.end, &[1])?;
        self.gate = Gate::Closed;
        self.end += count;
        Ok(())
    }

    /// Cuts off what stands behind the closed gate.
    fn mend_behind<D: Disk>(&mut self, disk: &mut D) -> Result<(), DiskFault>
        requires behind { self.old.gate ≡ Gate.Behind }
        requires stands { IfSome (D.told disk.old) (Stands self.old) }
        requires room { self.old.end < 18446744073709551615 }
        ensures stands { IfSome (D.told disk.new) (Stands self.new) }
        ensures closed { OnOk result (self.new.gate ≡ Gate.Closed) }
        ensures as_long { self.new.end ≡ self.old.end }
        ensures kept { front_of self.new (D.told disk.new) ≡ front_of self.old (D.told disk.old) }
        ensures last { KeepsLast self.old self.new (D.told disk.old) (D.told disk.new) }
        ensures any_moment { LeavesLast self.old (D.told disk.old) (D.told disk.new) }
        ensures cause { DiskCause (D.fault_count disk.old) (D.fault_count disk.new) result }
    {
        cut_to_stay(disk, self.end + 1)?;
        self.gate = Gate::Closed;
        Ok(())
    }

    /// Closes the gate, and then cuts off what stands behind it.
    fn mend_touched<D: Disk>(&mut self, disk: &mut D) -> Result<(), DiskFault>
        requires touched { self.old.gate ≡ Gate.Touched }
        requires stands { IfSome (D.told disk.old) (Stands self.old) }
        requires room { self.old.end < 18446744073709551615 }
        ensures stands { IfSome (D.told disk.new) (Stands self.new) }
        ensures closed { OnOk result (self.new.gate ≡ Gate.Closed) }
        ensures as_long { self.new.end ≡ self.old.end }
        ensures kept { front_of self.new (D.told disk.new) ≡ front_of self.old (D.told disk.old) }
        ensures last { KeepsLast self.old self.new (D.told disk.old) (D.told disk.new) }
        ensures any_moment { LeavesLast self.old (D.told disk.old) (D.told disk.new) }
        ensures cause { DiskCause (D.fault_count disk.old) (D.fault_count disk.new) result }
    {
        write_to_stay(disk, self.end, &[0])?;
        self.gate = Gate::Behind;
        cut_to_stay(disk, self.end + 1)?;
        self.gate = Gate::Closed;
        Ok(())
    }

    /// Makes the end a closed gate that is the last byte. After a fault the log ends where it did, and its gate says
    /// what is left to mend; behind one that is still touched stands the record that stood there. At every moment a
    /// crash leaves what was before the gate; where the gate was touched, with the record behind it or without.
    pub fn mend<D: Disk>(&mut self, disk: &mut D) -> Result<(), DiskFault>
        requires stands { IfSome (D.told disk.old) (Stands self.old) }
        requires room { self.old.end < 18446744073709551615 }
        ensures stands { IfSome (D.told disk.new) (Stands self.new) }
        ensures closed { OnOk result (self.new.gate ≡ Gate.Closed) }
        ensures as_long { self.new.end ≡ self.old.end }
        ensures kept { front_of self.new (D.told disk.new) ≡ front_of self.old (D.told disk.old) }
        ensures last { KeepsLast self.old self.new (D.told disk.old) (D.told disk.new) }
        ensures any_moment { LeavesLast self.old (D.told disk.old) (D.told disk.new) }
        ensures cause { DiskCause (D.fault_count disk.old) (D.fault_count disk.new) result }
    {
        match self.gate {
            Gate::Closed => Ok(()),
            Gate::Behind => self.mend_behind(disk),
            Gate::Touched => self.mend_touched(disk),
        }
    }
}
