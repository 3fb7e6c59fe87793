//! How much is done before an index says that memory is wanting.
ghost use Rattle.std.specs.Prelude.{◌≡◌, ◌<◌, ◌≤◌, ◌+◌, OnOk};
ghost use Rattle.register_readers.specs.Bounds.{most_of_all, most_of_one};

use vet_base::Memory;

/// To how many addresses all searches of an app come at the most, and how many places are asked.
const MOST_VISITS: usize = 67_108_864;

/// How many readers are listed at the most, of all places.
const MOST_OF_ALL: usize = 16_777_216;

/// How many of one place.
const MOST_OF_ONE: usize = 16_384;

/// How many addresses may still be come to, and how many readers listed.
#[derive(Drop)]
pub struct Budget {
    visits: usize,
    readers: usize,
}

impl Budget {
    pub fn new() -> Budget
        ensures { result.readers ≡ most_of_all }
    {
        Budget {
            visits: MOST_VISITS,
            readers: MOST_OF_ALL,
        }
    }

    /// One more is come to.
    pub fn visit(&mut self) -> Result<(), Memory>
        ensures fewer { OnOk result (self.new.visits < self.old.visits) }
        ensures readers { OnOk result (self.new.readers ≡ self.old.readers) }
    {
        if self.visits == 0 {
            return Err(Memory);
        }
        self.visits -= 1;
        Ok(())
    }

    /// So many are listed, of one place.
    pub fn list(&mut self, count: usize) -> Result<(), Memory>
        ensures few { OnOk result (count ≤ most_of_one) }
        ensures fewer { OnOk result (self.new.readers + count ≡ self.old.readers) }
    {
        if count > MOST_OF_ONE || count > self.readers {
            return Err(Memory);
        }
        self.readers -= count;
        Ok(())
    }
}
