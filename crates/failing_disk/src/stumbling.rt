ghost use Rattle.std.specs.Prelude.{◌≡◌, ◌+◌, ◌&&◌, false, not};
ghost use Rattle.sqlite_disk.specs.Disk.{CountsFault};
ghost use Rattle.sqlite_disk.specs.Refusal.{finds_no_room};

use sqlite_disk::{Crash, Disk, Tally};
use std::io;

/// At which call a disk fails, and how.
#[derive(Clone, Copy)]
pub struct Stumble {
    /// How many calls it does before.
    pub calls: u64,
    /// Whether a write, a change of the length or a sync is done, and told as failed all the same.
    pub is_done: bool,
}

/// A disk that fails at one call, and does each call before and after it. After a sync that failed nothing may be asked
/// of it until it comes back, as of any disk.
#[derive(Drop)]
pub struct Stumbling<D: Disk> {
    inner: D,
    /// How many calls come before the one that fails; none once it has failed.
    calls_left: Option<u64>,
    is_done: bool,
    refused: u64,
    sync_refused: bool,
}

impl<D: Disk> Stumbling<D> {
    pub fn new(inner: D, stumble: Stumble) -> Stumbling<D> {
        Stumbling {
            inner,
            calls_left: Some(stumble.calls),
            is_done: stumble.is_done,
            refused: 0,
            sync_refused: false,
        }
    }
}

/// Whether this call is the one that fails.
fn is_at_hand(calls_left: &mut Option<u64>) -> bool {
    match *calls_left {
        None => false,
        Some(0) => {
            *calls_left = None;
            true
        }
        Some(left) => {
            *calls_left = Some(left - 1);
            false
        }
    }
}

/// Goes a call further; the one that fails is counted.
fn go_on(calls_left: &mut Option<u64>, refused: &mut u64) -> io::Result<()>
    ensures faults { CountsFault result refused.old refused.new }
    ensures kind { finds_no_room result ≡ false }
{
    if is_at_hand(calls_left) {
        *refused = refused.saturating_add(1);
        return Err(io::Error::other("the disk stumbles"));
    }
    Ok(())
}

impl<D: Disk> Disk for Stumbling<D> {
    ghost seen = { λ f. D.Disk.seen f.inner };

    ghost may_leave = { λ f. D.Disk.may_leave f.inner };

    ghost is_usable = { λ f. D.Disk.is_usable f.inner && not f.sync_refused };

    ghost faults = { λ f. D.Disk.faults f.inner + f.refused };

    ghost tally_of = { λ f. D.Disk.tally_of f.inner };

    ghost is_rotten = { λ f. D.Disk.is_rotten f.inner };

    ghost key_of = { λ f. D.Disk.key_of f.inner };

    ghost is_clean = { λ f. D.Disk.is_clean f.inner };

    ghost is_fair = { λ f. D.Disk.is_fair f.inner };

    ghost fair_if_clean = { λ f. D.Disk.fair_if_clean f.inner };

    ghost seen_may_stay = { λ f. D.Disk.seen_may_stay f.inner };

    ghost is_mixing = { λ f. D.Disk.is_mixing f.inner };

    fn mixes(&self) -> bool {
        self.inner.mixes()
    }

    fn key(&self) -> u64 {
        self.inner.key()
    }

    fn tally(&self) -> Tally {
        self.inner.tally()
    }

    fn may_be_used(&self) -> bool {
        self.inner.may_be_used() && !self.sync_refused
    }

    fn len(&mut self) -> io::Result<usize> {
        go_on(&mut self.calls_left, &mut self.refused)?;
        self.inner.len()
    }

    fn read_at(&mut self, at: usize, buf: &mut [u8]) -> io::Result<()> {
        go_on(&mut self.calls_left, &mut self.refused)?;
        self.inner.read_at(at, buf)
    }

    fn read_checked(&mut self, key: u64, want: u64, at: usize, buf: &mut [u8]) -> io::Result<()> {
        go_on(&mut self.calls_left, &mut self.refused)?;
        self.inner.read_checked(key, want, at, buf)
    }

    fn write_at(&mut self, at: usize, bytes: &[u8]) -> io::Result<()> {
        if self.is_done {
            self.inner.write_at(at, bytes)?;
            return go_on(&mut self.calls_left, &mut self.refused);
        }
        go_on(&mut self.calls_left, &mut self.refused)?;
        self.inner.write_at(at, bytes)
    }

    fn set_len(&mut self, len: usize) -> io::Result<()> {
        if self.is_done {
            self.inner.set_len(len)?;
            return go_on(&mut self.calls_left, &mut self.refused);
        }
        go_on(&mut self.calls_left, &mut self.refused)?;
        self.inner.set_len(len)
    }

    fn sync(&mut self) -> io::Result<()> {
        if self.is_done {
            self.inner.sync()?;
        }
        if let Err(error) = go_on(&mut self.calls_left, &mut self.refused) {
            self.sync_refused = true;
            return Err(error);
        }
        if self.is_done {
            Ok(())
        } else {
            self.inner.sync()
        }
    }
}

/// The machine comes back, and no call fails any more: what was not synced is lost.
impl<D: Crash> Crash for Stumbling<D> {
    fn crash(&mut self) {
        self.inner.crash();
        self.calls_left = None;
        self.sync_refused = false;
    }
}
