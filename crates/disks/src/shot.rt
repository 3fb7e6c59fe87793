ghost use Rattle.std.specs.Prelude.{◌≡◌, ◌≤◌, ◌<◌, ◌+◌, ◌^◌, ◌∷◌, ◌++◌, [], Ok, Err};
ghost use Rattle.std.specs.Prelude.{length, take, IfOk, OnOk, OnErr, if◌then◌else◌};
ghost use Rattle.disks.specs.Disks.{over, wrote, shortened, solid};
ghost use Rattle.disks.specs.Memory.{moment_of};

use crate::{DiskCall, DiskFault};
use std::alloc::Global;
use std::mem;

/// What a disk in memory held at a moment, and what a crash might have left of it.
#[derive(Drop)]
pub(crate) struct Shot {
    pub(crate) bytes: Vec<u8>,
    pub(crate) least: u64,
    pub(crate) most: u64,
    pub(crate) loose: Vec<(u64, u64)>,
}

/// The bytes with others written over them from an offset on, or as they are where the call fails.
pub(crate) fn written_over(
    alloc: Global,
    old: &[u8],
    at: usize,
    bytes: &[u8],
    fails: bool,
) -> Result<Vec<u8>, DiskFault>
    requires { at ≤ length old.now }
    ensures ok { IfOk result (λ v. v.items ≡ (if fails then old.now else over old.now at bytes.now)) }
    ensures memory { OnErr result (result ≡ Err DiskFault.Memory) }
{
    if fails {
        return Ok(old.to_vec(alloc)?);
    }
    let mut new = old[..at].to_vec(alloc)?;
    new.extend_from_slice(bytes)?;
    if bytes.len() < old.len() - at {
        new.extend_from_slice(&old[at + bytes.len()..])?;
    }
    Ok(new)
}

/// The first bytes, so many, or all where the call fails.
pub(crate) fn cut_to(
    alloc: Global,
    old: &[u8],
    len: usize,
    fails: bool,
) -> Result<Vec<u8>, DiskFault>
    requires { len ≤ length old.now }
    ensures ok { IfOk result (λ v. v.items ≡ (if fails then old.now else take len old.now)) }
    ensures memory { OnErr result (result ≡ Err DiskFault.Memory) }
{
    if fails {
        return Ok(old.to_vec(alloc)?);
    }
    Ok(old[..len].to_vec(alloc)?)
}

impl Shot {
    /// The moment after a write of `count` bytes, where a read gives `bytes`.
    pub(crate) fn wrote(
        &self,
        alloc: Global,
        at: u64,
        count: u64,
        bytes: Vec<u8>,
    ) -> Result<Shot, DiskFault>
        requires { at + count < 2 ^ 64 }
        ensures ok { IfOk result (λ shot. moment_of shot ≡ wrote (moment_of self.now) at count bytes.items) }
        ensures memory { OnErr result (result ≡ Err DiskFault.Memory) }
    {
        let end = at + count;
        let mut loose = Vec::new(alloc);
        loose.push((at, end))?;
        loose.extend_from_slice(&self.loose)?;
        Ok(Shot {
            bytes,
            least: self.least,
            most: self.most.max(end),
            loose,
        })
    }

    /// The moment after a cut to `len` bytes, where a read gives `bytes`.
    pub(crate) fn shortened(
        &self,
        alloc: Global,
        len: u64,
        bytes: Vec<u8>,
    ) -> Result<Shot, DiskFault>
        ensures ok { IfOk result (λ shot. moment_of shot ≡ shortened (moment_of self.now) len bytes.items) }
        ensures memory { OnErr result (result ≡ Err DiskFault.Memory) }
    {
        Ok(Shot {
            bytes,
            least: self.least.min(len),
            most: self.most,
            loose: self.loose.to_vec(alloc)?,
        })
    }

    /// The moment after a sync.
    pub(crate) fn synced(&self, alloc: Global) -> Result<Shot, DiskFault>
        ensures ok { IfOk result (λ shot. moment_of shot ≡ solid self.now.bytes.items) }
        ensures memory { OnErr result (result ≡ Err DiskFault.Memory) }
    {
        let len = self.bytes.len() as u64;
        Ok(Shot {
            bytes: self.bytes.to_vec(alloc)?,
            least: len,
            most: len,
            loose: Vec::new(alloc),
        })
    }
}

/// A call is noted, the present moment becomes the last of those that are over, and another one is in its place. After
/// want of memory nothing has changed.
pub(crate) fn advance(
    now: &mut Shot,
    past: &mut Vec<Shot>,
    calls: &mut Vec<DiskCall>,
    call: DiskCall,
    next: Shot,
) -> Result<(), DiskFault>
    ensures ok { OnOk result ((now.new ≡ next) × (past.new.items ≡ now.old ∷ past.old.items)
        × (calls.new.items ≡ calls.old.items ++ call ∷ [])) }
    ensures err { OnErr result ((now.new ≡ now.old) × (past.new.items ≡ past.old.items)
        × (calls.new.items ≡ calls.old.items)) }
    ensures memory { OnErr result (result ≡ Err DiskFault.Memory) }
{
    past.try_reserve(1)?;
    calls.push(call)?;
    let over = mem::replace(now, next);
    past.insert(0, over).unwrap();
    Ok(())
}
