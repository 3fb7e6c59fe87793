use case_keeper::{Keeper, MemKeeper};
use desk_links::{DoorFault, FixedClock, MemDoor, MemLink};
use desk_serving::{Desk, Served, serve_door, serve_one};
use serving_lines::FirstByte;
use std::alloc::Global;
use std::marker::Model;

/// A keeper in memory whose cases are always those of a desk.
#[derive(Drop)]
pub struct Store {
    keeper: MemKeeper,
}

impl Model for Store {
    ghost use Rattle.case_keeper.specs.MemoryKeeper.{Kept};
    ghost use Rattle.case_rules.specs.Docket.{IsDocket};

    ghost Value = { Kept };

    ghost view = { λ s. s.keeper };

    ghost invariant = { λ s. IsDocket s.keeper.cases };
}

impl Store {
    /// A store without cases, which fails at the calls of these numbers.
    pub fn failing(alloc: Global, calls: Vec<u64>) -> Self {
        Store {
            keeper: MemKeeper::failing(alloc, calls),
        }
    }

    /// How often the store failed.
    pub fn faults(&self) -> u64 {
        self.keeper.faults()
    }

    /// Serves one connection.
    pub fn serve(
        &mut self,
        alloc: Global,
        desk: &Desk<FirstByte>,
        link: &mut MemLink,
        day: u32,
    ) -> Served {
        let mut clock = FixedClock::new(day);
        serve_one(alloc, desk, &mut self.keeper, link, &mut clock)
    }

    /// Serves so many connections of a door at most.
    pub fn serve_door(
        &mut self,
        alloc: Global,
        desk: &Desk<FirstByte>,
        door: &mut MemDoor,
        day: u32,
        most: u32,
    ) -> Result<u32, DoorFault> {
        let mut clock = FixedClock::new(day);
        serve_door(alloc, desk, &mut self.keeper, door, &mut clock, most)
    }
}
