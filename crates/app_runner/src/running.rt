ghost use Rattle.std.specs.Prelude.{◌≡◌, ◌≤◌, IfOk, OnOk, length};
ghost use Rattle.app_machine.specs.Sound.{SoundApp};
ghost use Rattle.app_machine.specs.SoundLists.{SoundLists};
ghost use Rattle.app_runner.specs.Known.{Serves};
ghost use Rattle.app_runner.specs.Played.{Tells};
ghost use Rattle.app_runner.specs.Told.{RunsTo};
ghost use Rattle.played_machine.specs.Drawn.{start};
ghost use Rattle.runner_steps.specs.State.{IsGround, playing_in};

use crate::stepping::{Known, step};
use app_index::LibraryIndex;
use app_machine::{App, Lists};
use event_index::EventIndex;
use played_alike::alike_states_draw_alike;
use runner_below::Belows;
use runner_menu::Menu;
use runner_stands::{Stand, stands_of};
use runner_state::Script;
use runner_steps::{Ground, Playing};
use runner_world::Arrival;
use std::alloc::Global;
use vet_base::Memory;

/// How many labels may arrive. Beyond that the answer is want of memory, so that a short script cannot ask for more
/// than there is.
const MOST_ARRIVALS: usize = 16_777_216;

/// What is told of a run.
#[derive(Drop)]
pub struct Played {
    /// How many steps it has.
    pub steps: u32,
    /// In the order in which they came.
    pub arrivals: Vec<Arrival>,
    /// Where the last state stands, by cause, method and address.
    pub stands: Vec<Stand>,
}

/// Plays the app by the script: a run of the machine whose choices are the script's bytes. It ends exactly where the
/// bytes that are left are too few for a step, or no event may come.
pub fn play(alloc: Global, app: &App, lists: &Lists, script: &[u8]) -> Result<Played, Memory>
    requires app { SoundApp app.now }
    requires lists { SoundLists lists.now }
    requires short { length script.now ≤ 1048576 }
    ensures { IfOk result (Tells app.now lists.now script.now) }
{
    let library = LibraryIndex::of(alloc, lists)?;
    let events = EventIndex::of(alloc, app, lists)?;
    let ground = Ground {
        app,
        lists,
        library,
        events,
    };
    let played = play_on(alloc, &ground, script)?;
    Ok(played)
}

/// Plays it where the indexes are there.
fn play_on(alloc: Global, ground: &Ground<'_>, script: &[u8]) -> Result<Played, Memory>
    requires ground { IsGround ground.now }
    requires short { length script.now ≤ 1048576 }
    ensures { IfOk result (Tells ground.now.app.now ground.now.lists.now script.now) }
{
    let mut known = known_first(alloc, ground)?;
    let mut playing = Playing::new(alloc);
    let steps = run(alloc, ground, &mut known, &mut playing, script)?;
    let stands = stands_of(alloc, ground, &playing)?;
    Ok(Played {
        steps,
        arrivals: arrivals_of(playing),
        stands,
    })
}

/// What has arrived.
fn arrivals_of(playing: Playing<'_>) -> Vec<Arrival>
    ensures { result ≡ playing.entry.world.arrivals }
{
    let world = playing.world;
    world.arrivals
}

/// What is known before anything is there.
fn known_first<'a>(alloc: Global, ground: &Ground<'a>) -> Result<Known<'a>, Memory>
    requires { IsGround ground.now }
    ensures { IfOk result (Serves ground.now start.world) }
{
    let menu = Menu::of(alloc, &ground.events, ground.app, ground.lists)?;
    Ok(Known {
        menu,
        belows: Belows::new(alloc),
    })
}

/// Runs on to the end of the script, and says how many steps that are.
fn run<'a>(
    alloc: Global,
    ground: &Ground<'a>,
    known: &mut Known<'a>,
    playing: &mut Playing<'a>,
    script: &[u8],
) -> Result<u32, Memory>
    requires ground { IsGround ground.now }
    requires known { Serves ground.now (playing_in playing.old).world known.old }
    requires short { length script.now ≤ 1048576 }
    ensures { IfOk result (λ steps. RunsTo ground.now.app.now ground.now.lists.now (playing_in playing.old) script.now
        steps (playing_in playing.new)) }
{
    alike_states_draw_alike();
    let mut left = Script { left: script };
    for turn in 0..script.len() {
        are_few(playing.world.arrivals.as_slice())?;
        let made = step(alloc, ground, known, playing, left)?;
        match made {
            None => return Ok(turn as u32),
            Some(rest) => left = rest,
        }
    }
    Ok(script.len() as u32)
}

/// Looks whether no more has arrived than there is room for.
fn are_few(arrivals: &[Arrival]) -> Result<(), Memory>
    ensures { OnOk result (length arrivals.now ≤ 16777216) }
{
    if arrivals.len() > MOST_ARRIVALS {
        return Err(Memory);
    }
    Ok(())
}
