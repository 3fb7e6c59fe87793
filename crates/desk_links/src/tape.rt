ghost use Rattle.std.specs.Prelude.{◌≡◌, ◌==◌, ◌+◌, ◌-◌, ◌≤◌, ◌++◌, [], min, length, take, drop, IfOk};
ghost use Rattle.desk_links.specs.Memory.{fresh, given_count};

use std::alloc::{AllocError, Global};
use std::marker::Model;

/// A conversation in memory. What is written stands in a store of its full size, so that no write takes memory.
#[derive(Drop)]
pub(crate) struct Tape {
    input: Vec<u8>,
    at: usize,
    store: Vec<u8>,
    used: usize,
    reads: usize,
}

impl Model for Tape {
    ghost use Rattle.std.specs.Prelude.{◌-◌, ◌≤◌, length, take, drop};
    ghost use Rattle.desk_links.specs.Memory.{Taped};

    ghost Value = { Taped };

    ghost view = { λ t. record {
      coming = drop t.at t.input.items;
      written = take t.used t.store.items;
      reads = t.reads;
      room = length t.store.items - t.used;
    } };

    ghost invariant = { λ t. (t.at ≤ length t.input.items) × (t.used ≤ length t.store.items) };
}

impl Tape {
    /// A conversation in which this comes, and which takes at most `room` bytes.
    pub(crate) fn new(alloc: Global, input: Vec<u8>, room: usize) -> Result<Self, AllocError>
        ensures { IfOk result (λ tape. tape ≡ fresh room input.items) }
    {
        let store = vec![in alloc; 0; room]?;
        Ok(Tape {
            input,
            at: 0,
            store,
            used: 0,
            reads: 0,
        })
    }

    /// A conversation in which nothing comes and which takes nothing.
    pub(crate) fn silent(alloc: Global) -> Self
        ensures { result ≡ fresh 0 [] }
    {
        Tape {
            input: Vec::new(alloc),
            at: 0,
            store: Vec::new(alloc),
            used: 0,
            reads: 0,
        }
    }

    /// The bytes written.
    pub(crate) fn written(&self) -> &[u8]
        ensures { result.now ≡ self.now.written }
    {
        &self.store[..self.used]
    }

    /// Whether it takes no more bytes.
    pub(crate) fn is_full(&self) -> bool
        ensures { result ≡ (self.now.room == 0) }
    {
        self.used == self.store.len()
    }

    /// Gives the next bytes, as many as the size for this read says.
    pub(crate) fn read(&mut self, sizes: &[usize], room: &mut [u8]) -> usize
        ensures count { result ≡ given_count sizes.now self.old (length room.old) }
        ensures tape { self.new ≡ record self.old {
          coming = drop result self.old.coming;
          reads = min (self.old.reads + 1) 18446744073709551615;
        } }
        ensures room { room.new ≡ take result self.old.coming ++ drop result room.old }
    {
        let most = match sizes.get(self.reads) {
            None => room.len(),
            Some(size) => (*size).max(1).min(room.len()),
        };
        let count = most.min(self.input.len() - self.at);
        room[..count].copy_from_slice(&self.input[self.at..self.at + count]);
        self.at += count;
        self.reads = self.reads.saturating_add(1);
        count
    }

    /// Takes the bytes for which there is room.
    pub(crate) fn write(&mut self, bytes: &[u8]) -> usize
        ensures count { result ≡ min (length bytes.now) self.old.room }
        ensures tape { self.new ≡ record self.old {
          written = self.old.written ++ take result bytes.now;
          room = self.old.room - result;
        } }
    {
        let count = bytes.len().min(self.store.len() - self.used);
        self.store[self.used..self.used + count].copy_from_slice(&bytes[..count]);
        self.used += count;
        count
    }
}
