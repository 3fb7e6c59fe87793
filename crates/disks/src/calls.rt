ghost use Rattle.std.specs.Prelude.{◌≡◌, Ok, true, IfOk, OnErr};
ghost use Rattle.disks.specs.Disks.{DiskCause};
ghost use Rattle.disks.specs.Memory.{is_listed, FailsAsListed};

use crate::DiskFault;
use std::alloc::Global;
use vet_base::Shared;

/// A call of a disk in memory, with what it was asked.
#[derive(Drop)]
pub enum DiskCall {
    Len,
    /// The offset, and how many bytes there was room for.
    Read(u64, usize),
    /// The offset and the bytes.
    Write(u64, Shared<u8>),
    /// How many bytes were to stay.
    Cut(u64),
    Sync,
}

/// A write of these bytes, as a call.
pub(crate) fn write_of(alloc: Global, at: u64, bytes: &[u8]) -> Result<DiskCall, DiskFault>
    ensures ok { IfOk result (λ call. call ≡ DiskCall.Write at bytes.now) }
    ensures memory { OnErr result (result ≡ Err DiskFault.Memory) }
{
    let kept = Shared::from_vec(alloc, bytes.to_vec(alloc)?)?;
    Ok(DiskCall::Write(at, kept))
}

/// Whether the number of the next call is listed; the first call has the number 1.
pub(crate) fn is_listed(failing: &[u64], calls: &[DiskCall]) -> bool
    ensures { result ≡ is_listed failing.now calls.now }
{
    let number = calls.len() as u64 + 1;
    failing.contains(&number)
}

/// The end of a call, which counts as a failure where its number is listed.
pub(crate) fn ended(faults: &mut u64, listed: bool) -> Result<(), DiskFault>
    ensures cause { DiskCause faults.old faults.new result }
    ensures listed { FailsAsListed listed result }
    ensures no_want { OnErr result (result ≡ Err DiskFault.Failed) }
{
    if listed {
        *faults = faults.saturating_add(1);
        return Err(DiskFault::Failed);
    }
    Ok(())
}
