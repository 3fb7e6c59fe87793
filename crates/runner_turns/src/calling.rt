ghost use Rattle.std.specs.Prelude.{◌≡◌, ◌<◌, IfOk, OnOk, option_map};
ghost use Rattle.std.specs.List.{All};
ghost use Rattle.played_growth.specs.Growth.{classes_of};
ghost use Rattle.played_machine.specs.Step.{calls_library};
ghost use Rattle.runner_below.specs.Kept.{AreBelow};
ghost use Rattle.runner_calls.specs.Frames.{frames_of};
ghost use Rattle.runner_heap.specs.Objects.{heap_of};
ghost use Rattle.runner_heap.specs.Shown.{value_behind};
ghost use Rattle.runner_library.specs.Call.{row_in, shared_in, values_in};
ghost use Rattle.runner_library.specs.Whole.{read_for};
ghost use Rattle.runner_state.specs.Shown.{register_in};
ghost use Rattle.runner_steps.specs.State.{IsGround, Makes, on_running, playing_in};
ghost use Rattle.runner_world.specs.World.{world_in};

use runner_below::Belows;
use runner_given::given;
use runner_library::{LibraryCall, values};
use runner_state::{Called, Held, Script};
use runner_steps::{Ground, Playing, call_given};
use runner_world::World;
use std::alloc::Global;
use vet_base::Memory;

/// The library does what its row says, and the running frame goes on, or a blank is raised.
pub fn call_library<'a, 's>(
    alloc: Global,
    ground: &Ground<'a>,
    belows: &mut Belows<'a>,
    playing: &mut Playing<'a>,
    of: LibraryCall<'a>,
    next: &[u32],
    script: Script<'s>,
) -> Result<Option<Script<'s>>, Memory>
    requires ground { IsGround ground.now }
    requires few { All (λ i. i < 65536) (shared_in of) }
    requires fits { AreBelow ground.now.app.now ground.now.lists.now (classes_of (heap_of playing.old.world.heap))
        playing.old.world.handed belows.old }
    ensures made { IfOk result (Makes (on_running (λ f fs. calls_library ground.now.app.now ground.now.lists.now
        (world_in playing.old.world) f fs next.now of.entry.kind of.entry.at.now of.entry.args.now (row_in of.entry))
        (frames_of playing.old.frames) script.entry.left.now) (playing_in playing.old) (playing_in playing.new)) }
    ensures fits { OnOk result (AreBelow ground.now.app.now ground.now.lists.now
        (classes_of (heap_of playing.old.world.heap)) playing.old.world.handed belows.new) }
{
    let given = given_here(alloc, ground, belows, playing, of, script)?;
    match given {
        None => Ok(None),
        Some((read, left)) => call_given(alloc, ground, playing, of, next, read, left),
    }
}

/// What the script gives the call of the running frame. None exactly where there is no frame, or a byte is wanted and
/// there is none.
fn given_here<'a, 's>(
    alloc: Global,
    ground: &Ground<'a>,
    belows: &mut Belows<'a>,
    playing: &Playing<'a>,
    of: LibraryCall<'a>,
    script: Script<'s>,
) -> Result<Option<(Held, Script<'s>)>, Memory>
    requires ground { IsGround ground.now }
    requires fits { AreBelow ground.now.app.now ground.now.lists.now (classes_of (heap_of playing.now.world.heap))
        playing.now.world.handed belows.old }
    ensures given { IfOk result (λ given. option_map value_behind given ≡ on_running (λ f fs. read_for
        ground.now.app.now ground.now.lists.now (world_in playing.now.world) (values_in of.entry f.registers)
        of.entry.at.now.proto.ret (row_in of.entry).gives) (frames_of playing.now.frames) script.entry.left.now) }
    ensures fits { OnOk result (AreBelow ground.now.app.now ground.now.lists.now
        (classes_of (heap_of playing.now.world.heap)) playing.now.world.handed belows.new) }
{
    match playing.frames.running() {
        None => Ok(None),
        Some(running) => given_in(alloc, ground, belows, &playing.world, running, of, script),
    }
}

/// The same in this frame.
fn given_in<'a, 's>(
    alloc: Global,
    ground: &Ground<'a>,
    belows: &mut Belows<'a>,
    world: &World<'a>,
    running: &Called,
    of: LibraryCall<'a>,
    script: Script<'s>,
) -> Result<Option<(Held, Script<'s>)>, Memory>
    requires ground { IsGround ground.now }
    requires fits { AreBelow ground.now.app.now ground.now.lists.now (classes_of (heap_of world.now.heap))
        world.now.handed belows.old }
    ensures given { IfOk result (λ given. option_map value_behind given ≡ read_for ground.now.app.now
        ground.now.lists.now (world_in world.now) (values_in of.entry (register_in running.now.registers))
        of.entry.at.now.proto.ret (row_in of.entry).gives script.entry.left.now) }
    ensures fits { OnOk result (AreBelow ground.now.app.now ground.now.lists.now (classes_of (heap_of world.now.heap))
        world.now.handed belows.new) }
{
    let values = values(alloc, &running.registers, of.kind, of.at, of.args)?;
    let slice = values.as_slice();
    let drawn = given(alloc, &ground.events, belows, world, of, slice, script)?;
    Ok(drawn)
}
