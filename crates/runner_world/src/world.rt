use crate::arrival::Arrival;
use crate::handed::Handed;
use crate::lives::Lives;
use runner_heap::Heap;
use runner_state::Values;
use std::alloc::Global;

/// All but the frames.
#[derive(Drop)]
pub struct World<'a> {
    pub heap: Heap<'a>,
    /// By number: the app's statics first, and behind them the shared objects of the lists.
    pub statics: Values,
    pub components: Lives,
    pub handed: Handed,
    /// In the order in which they came.
    pub arrivals: Vec<Arrival>,
}

impl<'a> World<'a> {
    ghost use Rattle.std.specs.Prelude.{◌≡◌};
    ghost use Rattle.app_machine.specs.Run.{start_world};
    ghost use Rattle.runner_world.specs.World.{world_in};

    /// Nothing is there yet.
    pub fn new(alloc: Global) -> World<'a>
        ensures { world_in result ≡ start_world }
    {
        World {
            heap: Heap::new(alloc),
            statics: Values::new(alloc),
            components: Lives::new(alloc),
            handed: Handed::new(alloc),
            arrivals: Vec::new(alloc),
        }
    }
}
