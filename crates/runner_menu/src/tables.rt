ghost use Rattle.std.specs.Prelude.{◌≡◌, IfOk, length};
ghost use Rattle.app_machine.specs.Sound.{SoundApp};
ghost use Rattle.runner_choices.specs.Meeting.{MeetsAt};
ghost use Rattle.runner_menu.specs.Tables.{AreTables, components_in};
ghost use Rattle.runner_world.specs.World.{world_in};

use app_machine::{App, Lists};
use event_index::EventIndex;
use runner_choices::{ComponentTable, Met, may_begin, sum};
use runner_world::World;
use std::alloc::Global;
use vet_base::Memory;

/// The table of each component.
pub fn tables_of<'a>(
    alloc: Global,
    index: &EventIndex,
    app: &'a App,
    lists: &'a Lists,
) -> Result<Vec<ComponentTable<'a>>, Memory>
    requires sound { SoundApp app.now }
    requires of_app { index.now.0 ≡ app.now }
    requires of_lists { index.now.1 ≡ lists.now }
    ensures { IfOk result (λ tables. AreTables app.entry.now lists.entry.now tables.items) }
{
    let mut tables = Vec::new(alloc);
    for number in 0..component_count(app) {
        let component = app.components.at(number as usize);
        tables.push(ComponentTable::of(alloc, index, app, lists, number, component)?)?;
    }
    Ok(tables)
}

fn component_count(app: &App) -> u32
    requires { SoundApp app.now }
    ensures { result ≡ length app.now.components }
{
    app.components.len() as u32
}

/// How many events may come to components.
pub fn count(app: &App, tables: &[ComponentTable<'_>], world: &World) -> Result<usize, Memory>
    requires sound { SoundApp app.now }
    requires long { length tables.now ≡ length app.now.components }
    ensures { IfOk result (λ all. all ≡ length (components_in app.now (world_in world.now) tables.now)) }
{
    let mut all = 0;
    for number in 0..component_count(app) {
        let begins = may_begin(app, world, number);
        let own = tables[number as usize].count(world, number, begins)?;
        all = sum(all, own)?;
    }
    Ok(all)
}

/// The event of the index among them.
pub fn event_at<'a>(
    app: &App,
    tables: &[ComponentTable<'a>],
    world: &World,
    index: usize,
) -> Met<'a>
    requires sound { SoundApp app.now }
    requires long { length tables.now ≡ length app.now.components }
    ensures { MeetsAt (world_in world.now) (components_in app.now (world_in world.now) tables.now) index result }
{
    let mut left = index;
    for number in 0..component_count(app) {
        let begins = may_begin(app, world, number);
        match tables[number as usize].at(world, number, begins, left) {
            Met::Here(choice) => return Met::Here(choice),
            Met::Past(rest) => left = rest,
        }
    }
    Met::Past(left)
}
