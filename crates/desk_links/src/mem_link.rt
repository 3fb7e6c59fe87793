ghost use Rattle.std.specs.Prelude.{◌≡◌, min, ◌≤◌, ◌==◌, ◌&&◌, Some, length, not, IfOk, OnErr, is_err, ◌||◌};
ghost use Rattle.vet_base.specs.Outside.{HasRisen};
ghost use Rattle.desk_links.specs.Links.{Reads, Writes, IsFront};
ghost use Rattle.desk_links.specs.Memory.{fresh, fails_next, counted, told_by_link, given_count, FailsAsNumbered};

use crate::calls::Calls;
use crate::tape::Tape;
use crate::{Link, LinkFault};
use std::alloc::Global;
use std::marker::Model;
use vet_base::Memory;

/// A link in memory. It tells what comes and what was written, and fails at the calls whose numbers it was given.
#[derive(Drop)]
pub struct MemLink {
    tape: Tape,
    sizes: Vec<usize>,
    calls: Calls,
}

impl Model for MemLink {
    ghost use Rattle.desk_links.specs.Memory.{LinkState};

    ghost Value = { LinkState };

    ghost view = { λ m. record { tape = m.tape; sizes = m.sizes.items; calls = m.calls } };
}

impl MemLink {
    /// A link in which this comes. The n-th read gives at most as many bytes as the n-th of the sizes in `pieces` says,
    /// where 0 counts as 1, and later reads as many as there is room for. It takes at most `room` bytes; a write of
    /// some bytes fails where no room is left. The calls of `read` and `write` are numbered from 1, and the n-th fails
    /// where n is in `failing`.
    pub fn new(
        alloc: Global,
        input: Vec<u8>,
        pieces: Vec<usize>,
        room: usize,
        failing: Vec<u64>,
    ) -> Result<MemLink, Memory>
        ensures { IfOk result (λ link. link ≡ record {
          tape = fresh room input.items;
          sizes = pieces.items;
          calls = record { failing = failing.items; calls = 0; faults = 0 };
        }) }
    {
        Ok(MemLink {
            tape: Tape::new(alloc, input, room)?,
            sizes: pieces,
            calls: Calls::new(failing),
        })
    }

    /// The bytes written.
    pub fn written(&self) -> &[u8]
        ensures { result.now ≡ self.now.tape.written }
    {
        self.tape.written()
    }
}

impl Link for MemLink {
    ghost told = { λ m. Some (told_by_link m) };

    ghost fault_count = { λ m. m.calls.faults };

    fn read(&mut self, room: &mut [u8]) -> Result<usize, LinkFault>
        ensures within { IfOk result (λ n. n ≤ length room.old) }
        ensures told { Reads (Some (told_by_link self.old)) (Some (told_by_link self.new)) room.old room.new result }
        ensures cause { OnErr result (HasRisen self.old.calls.faults self.new.calls.faults) }
        ensures never_falls { self.old.calls.faults ≤ self.new.calls.faults }
        ensures count { IfOk result (λ n. n ≡ given_count self.old.sizes self.old.tape (length room.old)) }
        ensures numbered { is_err result ≡ fails_next self.old.calls }
        ensures counted { self.new.calls ≡ counted (is_err result) self.old.calls }
        ensures sizes { self.new.sizes ≡ self.old.sizes }
    {
        if self.calls.fails(false) {
            return Err(LinkFault::Failed);
        }
        Ok(self.tape.read(&self.sizes, room))
    }

    fn write(&mut self, bytes: &[u8]) -> Result<usize, LinkFault>
        ensures front { IfOk result (λ n. IsFront n bytes.now) }
        ensures told { Writes (Some (told_by_link self.old)) (Some (told_by_link self.new)) bytes.now result }
        ensures cause { OnErr result (HasRisen self.old.calls.faults self.new.calls.faults) }
        ensures never_falls { self.old.calls.faults ≤ self.new.calls.faults }
        ensures count { IfOk result (λ n. n ≡ min (length bytes.now) self.old.tape.room) }
        ensures numbered { is_err result ≡ fails_next self.old.calls ||
            (not (length bytes.now == 0) && (self.old.tape.room == 0)) }
        ensures counted { self.new.calls ≡ counted (is_err result) self.old.calls }
        ensures sizes { self.new.sizes ≡ self.old.sizes }
    {
        if self.calls.fails(!bytes.is_empty() && self.tape.is_full()) {
            return Err(LinkFault::Failed);
        }
        Ok(self.tape.write(bytes))
    }

    fn faults(&self) -> u64 {
        self.calls.faults()
    }
}
