ghost use Rattle.std.specs.Prelude.{◌≡◌, ◌≤◌, ◌||◌, [], Some, None, map, option_map, length, IfOk, OnErr, is_err};
ghost use Rattle.vet_base.specs.Outside.{HasRisen};
ghost use Rattle.desk_links.specs.Links.{Reads, Writes, IsFront};
ghost use Rattle.desk_links.specs.Memory.{fails_next, counted};
ghost use Rattle.desk_callers.specs.Dials.{Dialled};
ghost use Rattle.desk_callers.specs.Memory.{line, told_by_caller, written_at, is_refused, takes_none, written_by};

use crate::calls::Calls;
use crate::lines::{hang_up, lines_of, next_line, read_from, write_to};
use crate::{Caller, DialFault};
use desk_links::{Link, LinkFault, MemLink};
use std::alloc::Global;
use std::collections::VecDeque;
use std::marker::Model;
use vet_base::Memory;

/// A caller in memory. It tells its dials, and fails at the calls whose numbers it was given.
#[derive(Drop)]
pub struct MemCaller {
    ended: Vec<Option<MemLink>>,
    present: Option<MemLink>,
    left: VecDeque<Option<MemLink>>,
    missed: u64,
    calls: Calls,
}

impl Model for MemCaller {
    ghost use Rattle.std.specs.Prelude.{◌≤◌, ◌+◌, All, length, vec_len, vec_capacity};
    ghost use Rattle.desk_callers.specs.Memory.{CallerState, IsWaiting, NeverFails, count_of};

    ghost Value = { CallerState };

    ghost view = { λ m. record {
      ended = m.ended.items;
      present = m.present;
      left = m.left.items;
      missed = m.missed;
      calls = m.calls;
    } };

    ghost invariant = { λ m. All IsWaiting m.left.items × NeverFails m.present
        × (vec_len m.ended + count_of m.present + length m.left.items ≤ vec_capacity m.ended) };
}

/// What was written to a connection; nothing where there is none.
fn written_to(line: &Option<MemLink>) -> &[u8]
    ensures { result.now ≡ written_by line.now }
{
    match line {
        Some(link) => link.written(),
        None => &[],
    }
}

impl MemCaller {
    /// A caller before its first dial. The k-th dial uses up the k-th entry of `dials`, whether it
    /// fails or not: None is a dial that fails, and Some the bytes of the reply on the connection
    /// that it makes, which takes at most `room` bytes. A dial past the list fails. The calls of
    /// `dial`, `read` and `write` are numbered from 1 together, and the n-th fails where n is in
    /// `failing`; a write of some bytes fails where no room is left, or without a connection.
    pub fn new(
        alloc: Global,
        dials: Vec<Option<Vec<u8>>>,
        room: usize,
        failing: Vec<u64>,
    ) -> Result<MemCaller, Memory>
        ensures { IfOk result (λ caller. caller ≡ record {
          ended = [];
          present = None;
          left = map (λ reply. line room (option_map (λ bytes. bytes.items) reply)) dials.items;
          missed = 0;
          calls = record { failing = failing.items; calls = 0; faults = 0 };
        }) }
    {
        let ended = Vec::with_capacity(alloc, dials.len())?;
        let left = lines_of(alloc, dials, room)?;
        Ok(MemCaller {
            ended,
            present: None,
            left,
            missed: 0,
            calls: Calls::new(failing),
        })
    }

    /// The bytes written in the dial of this number, from 0 on; none where it failed or was not made.
    pub fn written(&self, dial: usize) -> &[u8]
        ensures { result.now ≡ written_at self.now.ended self.now.present dial }
    {
        if dial < self.ended.len() {
            return written_to(&self.ended[dial]);
        }
        if dial == self.ended.len() {
            return written_to(&self.present);
        }
        &[]
    }
}

impl Link for MemCaller {
    ghost told = { λ m. Some (told_by_caller m) };

    ghost fault_count = { λ m. m.calls.faults };

    fn read(&mut self, room: &mut [u8]) -> Result<usize, LinkFault>
        ensures within { IfOk result (λ n. n ≤ length room.old) }
        ensures told { Reads (Some (told_by_caller self.old)) (Some (told_by_caller self.new)) room.old room.new
            result }
        ensures cause { OnErr result (HasRisen self.old.calls.faults self.new.calls.faults) }
        ensures never_falls { self.old.calls.faults ≤ self.new.calls.faults }
        ensures numbered { is_err result ≡ fails_next self.old.calls }
        ensures counted { self.new.calls ≡ counted (is_err result) self.old.calls }
    {
        let failed = self.calls.fails_next();
        self.calls.count(failed);
        if failed {
            return Err(LinkFault::Failed);
        }
        Ok(read_from(&mut self.present, room))
    }

    fn write(&mut self, bytes: &[u8]) -> Result<usize, LinkFault>
        ensures front { IfOk result (λ n. IsFront n bytes.now) }
        ensures told { Writes (Some (told_by_caller self.old)) (Some (told_by_caller self.new)) bytes.now result }
        ensures cause { OnErr result (HasRisen self.old.calls.faults self.new.calls.faults) }
        ensures never_falls { self.old.calls.faults ≤ self.new.calls.faults }
        ensures numbered { is_err result ≡ fails_next self.old.calls || takes_none bytes.now self.old.present }
        ensures counted { self.new.calls ≡ counted (is_err result) self.old.calls }
    {
        if self.calls.fails_next() {
            self.calls.count(true);
            return Err(LinkFault::Failed);
        }
        let written = write_to(&mut self.present, bytes);
        self.calls.count(written.is_err());
        written
    }

    fn faults(&self) -> u64 {
        self.calls.faults()
    }
}

impl Caller for MemCaller {
    fn dial(&mut self, _port: u16) -> Result<(), DialFault>
        ensures told { Dialled (Some (told_by_caller self.old)) (Some (told_by_caller self.new)) result }
        ensures cause { OnErr result (HasRisen self.old.calls.faults self.new.calls.faults) }
        ensures never_falls { self.old.calls.faults ≤ self.new.calls.faults }
        ensures numbered { is_err result ≡ fails_next self.old.calls || is_refused self.old.left }
        ensures counted { self.new.calls ≡ counted (is_err result) self.old.calls }
    {
        let listed = self.calls.fails_next();
        hang_up(&mut self.ended, &mut self.present);
        match next_line(&mut self.ended, &mut self.left, listed) {
            Some(link) => {
                self.present = Some(link);
                self.calls.count(false);
                Ok(())
            }
            None => {
                self.missed = self.missed.saturating_add(1);
                self.calls.count(true);
                Err(DialFault::Failed)
            }
        }
    }
}
