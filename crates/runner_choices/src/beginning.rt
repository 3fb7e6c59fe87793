ghost use Rattle.std.specs.Prelude.{◌≡◌};
ghost use Rattle.std.specs.Option.{option_copied};
ghost use Rattle.app_machine.specs.Sound.{SoundApp};
ghost use Rattle.played_machine.specs.Coming.{is_application, lets_begin, may_begin};
ghost use Rattle.runner_world.specs.World.{world_in};

use app_machine::{App, Component, Kind};
use runner_world::World;

/// Whether the component may come to life: the application comes first, where there is one.
pub fn may_begin(app: &App, world: &World, component: u32) -> bool
    requires { SoundApp app.now }
    ensures { result ≡ may_begin app.now (world_in world.now) component }
{
    first_lets_begin(world, component, app.components.get(0))
}

/// Whether the first component lets the other one come to life.
fn first_lets_begin(world: &World, component: u32, first: Option<&Component>) -> bool
    ensures { result ≡ lets_begin (world_in world.now) component 0 (option_copied first.entry) }
{
    match first {
        None => true,
        Some(first) => {
            !is_application(first.kind) || component == 0 || world.components.get(0).state == 2
        }
    }
}

fn is_application(kind: Kind) -> bool
    ensures { result ≡ is_application kind }
{
    match kind {
        Kind::Application => true,
        _ => false,
    }
}
