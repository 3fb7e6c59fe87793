ghost use Rattle.std.specs.Prelude.{◌≡◌, ◌∷◌, ◌++◌, [], IfOk, OnOk, Some, flat_map, if◌then◌else◌, length, map};
ghost use Rattle.std.specs.Prelude.{option_map, option_to_list, slice_get};
ghost use Rattle.app_machine.specs.Sound.{SoundApp};
ghost use Rattle.app_machine.specs.State.{World as AWorld};
ghost use Rattle.app_machine.specs.Summaries.{numbers_from};
ghost use Rattle.played_machine.specs.Coming.{component_events, handed_events};
ghost use Rattle.played_machine.specs.Standing.{body_of, stands_of};
ghost use Rattle.runner_choices.specs.Choices.{event_of};
ghost use Rattle.runner_choices.specs.Table.{menu_of};
ghost use Rattle.runner_stands.specs.Stands.{Marks, MarksMet, MarksMore, at_body, marked_below, stand_of};
ghost use Rattle.runner_steps.specs.State.{IsGround};
ghost use Rattle.runner_world.specs.World.{world_in};

use crate::causes::is_native;
use crate::standing::Stand;
use app_machine::{App, Component};
use runner_choices::{Choice, ComponentTable, Met, may_begin};
use runner_handed::HandedMenu;
use runner_steps::Ground;
use runner_world::World;
use std::alloc::Global;
use vet_base::Memory;

/// The beginnings of native bodies that events may run, by number.
pub fn native_bodies(
    alloc: Global,
    ground: &Ground<'_>,
    world: &World<'_>,
) -> Result<Vec<Stand>, Memory>
    requires { IsGround ground.now }
    ensures { IfOk result (λ stands. map stand_of stands.items
        ≡ stands_of ground.now.app.now ground.now.lists.now (world_in world.now) []) }
{
    let mut marks = unmarked(alloc, ground.app)?;
    mark_components(alloc, ground, world, &mut marks)?;
    mark_handed(alloc, ground, world, &mut marks)?;
    marked(alloc, ground.app, marks.as_slice())
}

/// No body is marked.
#[tactic(auto, using(crate::proofs::Marked::none_marked, crate::proofs::Marked::as_many))]
fn unmarked(alloc: Global, app: &App) -> Result<Vec<bool>, Memory>
    ensures long { IfOk result (λ marks. length marks.items ≡ length app.now.methods) }
    ensures none { IfOk result (λ marks. Marks app.now [] marks.items) }
{
    let marks = vec![in alloc; false; app.methods.len()]?;
    Ok(marks)
}

/// Marks the native bodies of the events that may come to components.
fn mark_components(
    alloc: Global,
    ground: &Ground<'_>,
    world: &World<'_>,
    marks: &mut Vec<bool>,
) -> Result<(), Memory>
    requires ground { IsGround ground.now }
    requires long { length marks.old.items ≡ length ground.now.app.now.methods }
    ensures { OnOk result (MarksMore ground.now.app.now (flat_map (component_events ground.now.app.now
        ground.now.lists.now (world_in world.now)) (numbers_from 0 (length ground.now.app.now.components)))
        marks.old.items marks.new.items) }
{
    for number in 0..component_count(ground.app) {
        let component = ground.app.components.at(number as usize);
        mark_component(alloc, ground, world, number, component, marks)?;
    }
    Ok(())
}

fn component_count(app: &App) -> u32
    requires { SoundApp app.now }
    ensures { result ≡ length app.now.components }
{
    app.components.len() as u32
}

/// Marks the native bodies of the events that may come to this component, which is that of the number.
fn mark_component(
    alloc: Global,
    ground: &Ground<'_>,
    world: &World<'_>,
    number: u32,
    component: &Component,
    marks: &mut Vec<bool>,
) -> Result<(), Memory>
    requires ground { IsGround ground.now }
    requires there { slice_get ground.now.app.now.components number ≡ Some component.now }
    requires long { length marks.old.items ≡ length ground.now.app.now.methods }
    ensures { OnOk result (MarksMore ground.now.app.now (component_events ground.now.app.now
        ground.now.lists.now (world_in world.now) number) marks.old.items marks.new.items) }
{
    let begins = may_begin(ground.app, world, number);
    let table = ComponentTable::of(
        alloc,
        &ground.events,
        ground.app,
        ground.lists,
        number,
        component,
    )?;
    mark_listed(ground.app, world, number, begins, &table, marks)?;
    Ok(())
}

/// Marks the native bodies of the events that the table lists.
fn mark_listed(
    app: &App,
    world: &World<'_>,
    number: u32,
    begins: bool,
    table: &ComponentTable<'_>,
    marks: &mut Vec<bool>,
) -> Result<(), Memory>
    requires { length marks.old.items ≡ length app.now.methods }
    ensures { OnOk result (MarksMore app.now (menu_of (world_in world.now) number begins table.now)
        marks.old.items marks.new.items) }
{
    let count = table.count(world, number, begins)?;
    for index in 0..count {
        mark_met(app, table.at(world, number, begins, index), marks);
    }
    Ok(())
}

/// Marks the native body of the event that was met.
fn mark_met(app: &App, met: Met<'_>, marks: &mut Vec<bool>)
    requires { length marks.old.items ≡ length app.now.methods }
    ensures { (w : AWorld) → MarksMet app.now w met.entry marks.old.items marks.new.items }
{
    match met {
        Met::Here(choice) => mark(app, choice, marks),
        Met::Past(_left) => {}
    }
}

/// Marks the native bodies of the callbacks that may come to handed objects.
fn mark_handed(
    alloc: Global,
    ground: &Ground<'_>,
    world: &World<'_>,
    marks: &mut Vec<bool>,
) -> Result<(), Memory>
    requires ground { IsGround ground.now }
    requires long { length marks.old.items ≡ length ground.now.app.now.methods }
    ensures { OnOk result (MarksMore ground.now.app.now (flat_map (handed_events ground.now.app.now
        ground.now.lists.now (world_in world.now)) (numbers_from 0 (length ground.now.lists.now.callbacks)))
        marks.old.items marks.new.items) }
{
    let mut menu = HandedMenu::new(alloc, ground.events.callback_count())?;
    menu.catch_up(alloc, &ground.events, &world.heap, world.handed.places())?;
    let count = menu.count()?;
    for index in 0..count {
        mark_found(ground.app, menu.at(ground.lists, index), marks);
    }
    Ok(())
}

/// Marks the native body of the event that was found.
fn mark_found(app: &App, found: Option<Choice<'_>>, marks: &mut Vec<bool>)
    requires { length marks.old.items ≡ length app.now.methods }
    ensures { (w : AWorld) → MarksMore app.now (option_to_list (option_map (event_of w) found.entry))
        marks.old.items marks.new.items }
{
    match found {
        None => {}
        Some(choice) => mark(app, choice, marks),
    }
}

/// Marks the body of the event, where it is native.
fn mark(app: &App, choice: Choice<'_>, marks: &mut Vec<bool>)
    requires { length marks.old.items ≡ length app.now.methods }
    ensures { (w : AWorld) → MarksMore app.now (event_of w choice.entry ∷ [])
        marks.old.items marks.new.items }
{
    match body_of(choice) {
        None => {}
        Some(body) => {
            if is_native(app, body) {
                marks[body as usize] = true;
            }
        }
    }
}

/// The body that the event may run.
fn body_of(choice: Choice<'_>) -> Option<u32>
    ensures { (w : AWorld) → option_to_list result ≡ body_of (event_of w choice.entry) }
{
    match choice {
        Choice::Born(_number, _class, _state, body) => body,
        Choice::Lives(_number, _state, body) => body,
        Choice::Called(_place, _sources, body) => Some(body),
        Choice::Initialises(body) => Some(body),
    }
}

/// The beginnings of the marked bodies.
fn marked(alloc: Global, app: &App, marks: &[bool]) -> Result<Vec<Stand>, Memory>
    requires sound { SoundApp app.now }
    requires long { length marks.now ≡ length app.now.methods }
    ensures { IfOk result (λ stands. map stand_of stands.items
        ≡ map at_body (marked_below marks.now (length app.now.methods))) }
{
    let mut stands = Vec::new(alloc);
    for method in 0..method_count(app) {
        add_if(&mut stands, method, marks[method as usize])?;
    }
    Ok(stands)
}

/// Adds the beginning of the body, where it is marked.
fn add_if(stands: &mut Vec<Stand>, method: u32, is_marked: bool) -> Result<(), Memory>
    ensures { OnOk result (map stand_of stands.new.items ≡ map stand_of stands.old.items
        ++ (if is_marked then at_body method ∷ [] else [])) }
{
    if !is_marked {
        return Ok(());
    }
    stands.push(Stand {
        cause: 2,
        method,
        pc: 0,
    })?;
    Ok(())
}

fn method_count(app: &App) -> u32
    requires { SoundApp app.now }
    ensures { result ≡ length app.now.methods }
{
    app.methods.len() as u32
}
