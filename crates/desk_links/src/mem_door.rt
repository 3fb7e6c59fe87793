ghost use Rattle.std.specs.Prelude.{◌≡◌, ◌↔◌, true, ◌≤◌, ◌<◌, ◌==◌, ◌&&◌, ◌||◌, ◌++◌, [], ◌∷◌, Some, false, min};
ghost use Rattle.std.specs.Prelude.{map, length, not, IfOk, OnErr, is_err, vec_len, vec_capacity, if◌then◌else◌};
ghost use Rattle.vet_base.specs.Outside.{HasRisen};
ghost use Rattle.desk_links.specs.Links.{Reads, Writes, IsFront, Opens};
ghost use Rattle.desk_links.specs.Memory.{fresh, fails_next, counted, told_by_door};
ghost use Rattle.desk_links.specs.Memory.{written_in, given_count, written_of};

use crate::calls::Calls;
use crate::tape::Tape;
use crate::{Door, DoorFault, Link, LinkFault};
use std::alloc::{AllocError, Global};
use std::collections::VecDeque;
use std::marker::Model;
use std::mem;
use vet_base::Memory;

/// A door in memory. It tells its conversations, and fails at the calls whose numbers it was given.
#[derive(Drop)]
pub struct MemDoor {
    present: Tape,
    begun: bool,
    ended: Vec<Tape>,
    left: VecDeque<Tape>,
    missed: u64,
    sizes: Vec<usize>,
    calls: Calls,
}

impl Model for MemDoor {
    ghost use Rattle.std.specs.Prelude.{All};
    ghost use Rattle.desk_links.specs.Memory.{DoorState, IsBlank};

    ghost Value = { DoorState };

    ghost view = { λ m. record {
      present = m.present;
      begun = m.begun;
      ended = m.ended.items;
      left = m.left.items;
      missed = m.missed;
      sizes = m.sizes.items;
      calls = m.calls;
    } };

    ghost invariant = { λ m. All IsBlank m.left.items };
}

/// The conversations in which this comes.
fn conversations(
    alloc: Global,
    inputs: Vec<Vec<u8>>,
    room: usize,
) -> Result<VecDeque<Tape>, AllocError>
    ensures { IfOk result (λ tapes. tapes.items ≡ map (λ input. fresh room input.items) inputs.items) }
{
    let mut tapes = VecDeque::new(alloc);
    for input in inputs {
        tapes.push_back(Tape::new(alloc, input, room)?)?;
    }
    Ok(tapes)
}

/// Puts the present conversation, where there is one, behind those that are over, and another one in its place.
fn turn_to(ended: &mut Vec<Tape>, present: &mut Tape, begun: bool, next: Tape)
    requires { vec_len ended.old < vec_capacity ended.old }
    ensures ended { ended.new.items ≡ (if begun then ended.old.items ++ present.old ∷ [] else ended.old.items) }
    ensures present { present.new ≡ next }
{
    let over = mem::replace(present, next);
    if begun {
        ended.push(over).unwrap();
    }
}

impl MemDoor {
    /// A door before the first conversation, with one input for each. Each comes in pieces and takes `room` bytes as
    /// that of a `MemLink`. The calls of `next`, `read` and `write` are numbered from 1 together, and the n-th fails
    /// where n is in `failing`.
    pub fn new(
        alloc: Global,
        inputs: Vec<Vec<u8>>,
        pieces: Vec<usize>,
        room: usize,
        failing: Vec<u64>,
    ) -> Result<MemDoor, Memory>
        ensures { IfOk result (λ door. door ≡ record {
          present = fresh 0 [];
          begun = false;
          ended = [];
          left = map (λ input. fresh room input.items) inputs.items;
          missed = 0;
          sizes = pieces.items;
          calls = record { failing = failing.items; calls = 0; faults = 0 };
        }) }
    {
        Ok(MemDoor {
            present: Tape::silent(alloc),
            begun: false,
            ended: Vec::new(alloc),
            left: conversations(alloc, inputs, room)?,
            missed: 0,
            sizes: pieces,
            calls: Calls::new(failing),
        })
    }

    /// The bytes written in the conversation of this number, from 0 on; none where it has not begun.
    pub fn written(&self, conversation: usize) -> &[u8]
        ensures { result.now ≡ written_in (told_by_door self.now) conversation }
    {
        if let Some(tape) = self.ended.get(conversation) {
            return tape.written();
        }
        if self.begun && conversation == self.ended.len() {
            return self.present.written();
        }
        &[]
    }
}

impl Link for MemDoor {
    ghost told = { λ m. Some (told_by_door m) };

    ghost fault_count = { λ m. m.calls.faults };

    fn read(&mut self, room: &mut [u8]) -> Result<usize, LinkFault>
        ensures within { IfOk result (λ n. n ≤ length room.old) }
        ensures told { Reads (Some (told_by_door self.old)) (Some (told_by_door self.new)) room.old room.new result }
        ensures cause { OnErr result (HasRisen self.old.calls.faults self.new.calls.faults) }
        ensures never_falls { self.old.calls.faults ≤ self.new.calls.faults }
        ensures count { IfOk result (λ n. n ≡ given_count self.old.sizes self.old.present (length room.old)) }
        ensures numbered { is_err result ≡ fails_next self.old.calls }
        ensures counted { self.new.calls ≡ counted (is_err result) self.old.calls }
        ensures sizes { self.new.sizes ≡ self.old.sizes }
    {
        if self.calls.fails(false) {
            return Err(LinkFault::Failed);
        }
        Ok(self.present.read(&self.sizes, room))
    }

    fn write(&mut self, bytes: &[u8]) -> Result<usize, LinkFault>
        ensures front { IfOk result (λ n. IsFront n bytes.now) }
        ensures told { Writes (Some (told_by_door self.old)) (Some (told_by_door self.new)) bytes.now result }
        ensures cause { OnErr result (HasRisen self.old.calls.faults self.new.calls.faults) }
        ensures never_falls { self.old.calls.faults ≤ self.new.calls.faults }
        ensures count { IfOk result (λ n. n ≡ min (length bytes.now) self.old.present.room) }
        ensures numbered { is_err result ≡ fails_next self.old.calls ||
            (not (length bytes.now == 0) && (self.old.present.room == 0)) }
        ensures counted { self.new.calls ≡ counted (is_err result) self.old.calls }
        ensures sizes { self.new.sizes ≡ self.old.sizes }
    {
        if self
            .calls
            .fails(!bytes.is_empty() && self.present.is_full())
        {
            return Err(LinkFault::Failed);
        }
        Ok(self.present.write(bytes))
    }

    fn faults(&self) -> u64 {
        self.calls.faults()
    }
}

impl Door for MemDoor {
    fn next(&mut self, alloc: Global, _port: u16) -> Result<bool, DoorFault>
        ensures told { Opens (Some (told_by_door self.old)) (Some (told_by_door self.new)) result }
        ensures cause { result ≡ Err DoorFault.Failed → HasRisen self.old.calls.faults self.new.calls.faults }
        ensures never_falls { self.old.calls.faults ≤ self.new.calls.faults }
        ensures numbered { result ≡ Err DoorFault.Failed ↔ fails_next self.old.calls ≡ true }
        ensures counted { self.new.calls ≡ counted (fails_next self.old.calls) self.old.calls }
        ensures sizes { self.new.sizes ≡ self.old.sizes }
    {
        if self.calls.fails(false) {
            self.missed = self.missed.saturating_add(1);
            return Err(DoorFault::Failed);
        }
        self.ended.try_reserve(1)?;
        let begun = self.begun;
        match self.left.pop_front() {
            Some(next) => {
                turn_to(&mut self.ended, &mut self.present, begun, next);
                self.begun = true;
                Ok(true)
            }
            None => {
                let next = Tape::silent(alloc);
                turn_to(&mut self.ended, &mut self.present, begun, next);
                self.begun = false;
                Ok(false)
            }
        }
    }
}
