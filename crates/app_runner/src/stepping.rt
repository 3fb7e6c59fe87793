ghost use Rattle.std.specs.Prelude.{◌≡◌, [], IfOk, OnOk, reverse};
ghost use Rattle.app_runner.specs.Known.{Serves};
ghost use Rattle.played_machine.specs.Drawn.{drawn_step};
ghost use Rattle.played_machine.specs.Reading.{handed_places};
ghost use Rattle.runner_calls.specs.Frames.{frames_of};
ghost use Rattle.runner_steps.specs.State.{IsGround, Makes, playing_in};

use played_growth::steps_only_add;
use runner_begin::begin;
use runner_below::{Belows, belows_stay};
use runner_menu::{Menu, menus_stay};
use runner_state::Script;
use runner_steps::{Ground, Playing};
use runner_turns::step_running;
use runner_world::Handed;
use std::alloc::Global;
use vet_base::Memory;

/// What is known of a run beside its state, so that no step goes over all that was handed.
#[derive(Drop)]
pub struct Known<'a> {
    pub menu: Menu<'a>,
    pub belows: Belows<'a>,
}

/// A step: of the running frame, or an event where none runs. None exactly where the bytes are too few for a step, or
/// no event may come, and then all is as before.
pub fn step<'a, 's>(
    alloc: Global,
    ground: &Ground<'a>,
    known: &mut Known<'a>,
    playing: &mut Playing<'a>,
    script: Script<'s>,
) -> Result<Option<Script<'s>>, Memory>
    requires ground { IsGround ground.now }
    requires known { Serves ground.now (playing_in playing.old).world known.old }
    ensures made { IfOk result (Makes (drawn_step ground.now.app.now ground.now.lists.now (playing_in playing.old)
        script.entry.left.now) (playing_in playing.old) (playing_in playing.new)) }
    ensures known { OnOk result (Serves ground.now (playing_in playing.new).world known.new) }
{
    steps_only_add();
    menus_stay();
    belows_stay();
    let left = step_from(alloc, ground, known, playing, script)?;
    Ok(left)
}

/// The same, where what is known is still of the state before.
fn step_from<'a, 's>(
    alloc: Global,
    ground: &Ground<'a>,
    known: &mut Known<'a>,
    playing: &mut Playing<'a>,
    script: Script<'s>,
) -> Result<Option<Script<'s>>, Memory>
    requires ground { IsGround ground.now }
    requires known { Serves ground.now (playing_in playing.old).world known.old }
    ensures made { IfOk result (Makes (drawn_step ground.now.app.now ground.now.lists.now (playing_in playing.old)
        script.entry.left.now) (playing_in playing.old) (playing_in playing.new)) }
    ensures known { OnOk result (Serves ground.now (playing_in playing.old).world known.new) }
{
    each_stands_once(&playing.world.handed);
    match playing.frames.running() {
        None => step_event(alloc, ground, known, playing, script),
        Some(_running) => {
            let left = step_running(alloc, ground, &mut known.belows, playing, script)?;
            Ok(left)
        }
    }
}

/// Each handed place stands once.
fn each_stands_once(handed: &Handed)
    ensures { handed_places (reverse handed.now) ≡ handed.now }
{
    let _places = handed.places();
}

/// The event that the next byte chooses begins.
fn step_event<'a, 's>(
    alloc: Global,
    ground: &Ground<'a>,
    known: &mut Known<'a>,
    playing: &mut Playing<'a>,
    script: Script<'s>,
) -> Result<Option<Script<'s>>, Memory>
    requires ground { IsGround ground.now }
    requires known { Serves ground.now (playing_in playing.old).world known.old }
    requires once { handed_places (reverse playing.old.world.handed) ≡ playing.old.world.handed }
    requires idle { frames_of playing.old.frames ≡ [] }
    ensures made { IfOk result (Makes (drawn_step ground.now.app.now ground.now.lists.now (playing_in playing.old)
        script.entry.left.now) (playing_in playing.old) (playing_in playing.new)) }
    ensures known { OnOk result (Serves ground.now (playing_in playing.old).world known.new) }
{
    known.menu.catch_up(alloc, &ground.events, &playing.world)?;
    let drawn = known
        .menu
        .drawn(ground.app, ground.lists, &playing.world, script)?;
    match drawn {
        None => Ok(None),
        Some((choice, rest)) => {
            let left = begin(alloc, ground, &mut known.belows, playing, choice, rest)?;
            Ok(left)
        }
    }
}
