use runner_calls::Frames;
use runner_world::World;
use std::alloc::Global;

/// A state of a run: the world, and the frames.
#[derive(Drop)]
pub struct Playing<'a> {
    pub world: World<'a>,
    pub frames: Frames,
}

impl<'a> Playing<'a> {
    ghost use Rattle.std.specs.Prelude.{◌≡◌};
    ghost use Rattle.played_machine.specs.Drawn.{start};
    ghost use Rattle.runner_steps.specs.State.{playing_in};

    /// Nothing is there yet.
    pub fn new(alloc: Global) -> Playing<'a>
        ensures { playing_in result ≡ start }
    {
        Playing {
            world: World::new(alloc),
            frames: Frames::new(alloc),
        }
    }
}
