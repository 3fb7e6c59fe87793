ghost use Rattle.std.specs.Prelude.{◌≡◌, ◌≤◌, ◌<◌, ◌+◌, ◌++◌, ◌∷◌, [], IfOk, IfSome, OnOk, length, option_to_list};
ghost use Rattle.app_machine.specs.Heap.{blank};
ghost use Rattle.played_growth.specs.Growth.{classes_of};
ghost use Rattle.played_machine.specs.Local.{raised};
ghost use Rattle.runner_below.specs.Kept.{AreBelow};
ghost use Rattle.runner_calls.specs.Frames.{frames_of};
ghost use Rattle.runner_heap.specs.Objects.{heap_of};
ghost use Rattle.runner_steps.specs.Doing.{NamesFew, drawing_in, drawing_of};
ghost use Rattle.runner_steps.specs.State.{IsGround, Makes, on_running, playing_in};
ghost use Rattle.runner_turns.specs.Ways.{begins, one_way, way_at, ways_of};
ghost use Rattle.runner_world.specs.World.{world_in};

use crate::owning::carry_out;
use runner_below::Belows;
use runner_state::{Held, Script};
use runner_steps::{Doing, Ground, Playing, raise};
use std::alloc::Global;
use vet_base::Memory;

/// One of the ways of the running frame, as the next byte chooses: these initialisers, what the instruction does, where
/// it does something, and the raise of a blank.
pub fn choose<'a, 's>(
    alloc: Global,
    ground: &Ground<'a>,
    belows: &mut Belows<'a>,
    playing: &mut Playing<'a>,
    first: &[u32],
    does: Option<Doing<'a>>,
    script: Script<'s>,
) -> Result<Option<Script<'s>>, Memory>
    requires ground { IsGround ground.now }
    requires few { IfSome does NamesFew }
    requires runs { 0 < length (frames_of playing.old.frames) }
    requires fits { AreBelow ground.now.app.now ground.now.lists.now (classes_of (heap_of playing.old.world.heap))
        playing.old.world.handed belows.old }
    ensures made { IfOk result (Makes (one_way (ways_of ground.now.app.now (world_in playing.old.world)
        (frames_of playing.old.frames) first.now (drawing_of ground.now.app.now ground.now.lists.now
        (world_in playing.old.world) (frames_of playing.old.frames) does.entry))
        script.entry.left.now) (playing_in playing.old) (playing_in playing.new)) }
    ensures fits { OnOk result (AreBelow ground.now.app.now ground.now.lists.now
        (classes_of (heap_of playing.old.world.heap)) playing.old.world.handed belows.new) }
{
    match script.draw(first.len() + count(does) + 1) {
        None => Ok(None),
        Some((i, left)) => go(alloc, ground, belows, playing, first, does, i, left),
    }
}

/// How many ways the instruction's own are.
fn count(does: Option<Doing>) -> usize
    ensures same { result ≡ length (option_to_list does.entry) }
    ensures few { result ≤ 1 }
{
    match does {
        None => 0,
        Some(_does) => 1,
    }
}

/// The way of this index.
fn go<'a, 's>(
    alloc: Global,
    ground: &Ground<'a>,
    belows: &mut Belows<'a>,
    playing: &mut Playing<'a>,
    first: &[u32],
    does: Option<Doing<'a>>,
    index: usize,
    script: Script<'s>,
) -> Result<Option<Script<'s>>, Memory>
    requires ground { IsGround ground.now }
    requires few { IfSome does NamesFew }
    requires runs { 0 < length (frames_of playing.old.frames) }
    requires within { index ≤ length first.now + length (option_to_list does) }
    requires fits { AreBelow ground.now.app.now ground.now.lists.now (classes_of (heap_of playing.old.world.heap))
        playing.old.world.handed belows.old }
    ensures made { IfOk result (Makes (way_at (ways_of ground.now.app.now (world_in playing.old.world)
        (frames_of playing.old.frames) first.now (drawing_of ground.now.app.now ground.now.lists.now
        (world_in playing.old.world) (frames_of playing.old.frames) does.entry)) index
        script.entry.left.now) (playing_in playing.old) (playing_in playing.new)) }
    ensures fits { OnOk result (AreBelow ground.now.app.now ground.now.lists.now
        (classes_of (heap_of playing.old.world.heap)) playing.old.world.handed belows.new) }
{
    if index < first.len() {
        begin(alloc, ground, playing, first[index], script)
    } else {
        go_on(
            alloc,
            ground,
            belows,
            playing,
            does,
            index - first.len(),
            script,
        )
    }
}

/// The initialiser begins.
fn begin<'a, 's>(
    alloc: Global,
    ground: &Ground<'a>,
    playing: &mut Playing<'a>,
    body: u32,
    script: Script<'s>,
) -> Result<Option<Script<'s>>, Memory>
    requires { IsGround ground.now }
    ensures { IfOk result (Makes (begins ground.now.app.now (world_in playing.old.world) (frames_of playing.old.frames)
        body script.entry.left.now) (playing_in playing.old) (playing_in playing.new)) }
{
    playing.frames.enter(alloc, ground.app, body, &[], true)?;
    Ok(Some(script))
}

/// At 0 what the instruction does, where it does something, and else the raise of a blank.
fn go_on<'a, 's>(
    alloc: Global,
    ground: &Ground<'a>,
    belows: &mut Belows<'a>,
    playing: &mut Playing<'a>,
    does: Option<Doing<'a>>,
    index: usize,
    script: Script<'s>,
) -> Result<Option<Script<'s>>, Memory>
    requires ground { IsGround ground.now }
    requires few { IfSome does NamesFew }
    requires runs { 0 < length (frames_of playing.old.frames) }
    requires within { index ≤ length (option_to_list does) }
    requires fits { AreBelow ground.now.app.now ground.now.lists.now (classes_of (heap_of playing.old.world.heap))
        playing.old.world.handed belows.old }
    ensures made { IfOk result (Makes (way_at (option_to_list (drawing_of ground.now.app.now ground.now.lists.now
        (world_in playing.old.world) (frames_of playing.old.frames) does.entry)
        ++ raised ground.now.app.now blank (world_in playing.old.world) (frames_of playing.old.frames) ∷ []) index
        script.entry.left.now) (playing_in playing.old) (playing_in playing.new)) }
    ensures fits { OnOk result (AreBelow ground.now.app.now ground.now.lists.now
        (classes_of (heap_of playing.old.world.heap)) playing.old.world.handed belows.new) }
{
    match does {
        None => raise(ground, playing, Held::blank(), script),
        Some(does) => own_or_raise(alloc, ground, belows, playing, does, index, script),
    }
}

/// At 0 what the instruction does, at 1 the raise of a blank.
fn own_or_raise<'a, 's>(
    alloc: Global,
    ground: &Ground<'a>,
    belows: &mut Belows<'a>,
    playing: &mut Playing<'a>,
    does: Doing<'a>,
    index: usize,
    script: Script<'s>,
) -> Result<Option<Script<'s>>, Memory>
    requires ground { IsGround ground.now }
    requires few { NamesFew does }
    requires within { index ≤ 1 }
    requires fits { AreBelow ground.now.app.now ground.now.lists.now (classes_of (heap_of playing.old.world.heap))
        playing.old.world.handed belows.old }
    ensures made { IfOk result (Makes (way_at (on_running (λ f fs. drawing_in ground.now.app.now ground.now.lists.now
        (world_in playing.old.world) f fs does.entry) (frames_of playing.old.frames)
        ∷ raised ground.now.app.now blank (world_in playing.old.world) (frames_of playing.old.frames) ∷ []) index
        script.entry.left.now) (playing_in playing.old) (playing_in playing.new)) }
    ensures fits { OnOk result (AreBelow ground.now.app.now ground.now.lists.now
        (classes_of (heap_of playing.old.world.heap)) playing.old.world.handed belows.new) }
{
    if index == 0 {
        carry_out(alloc, ground, belows, playing, does, script)
    } else {
        raise(ground, playing, Held::blank(), script)
    }
}
