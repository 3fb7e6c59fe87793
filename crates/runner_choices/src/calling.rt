ghost use Rattle.std.specs.Prelude.{◌≡◌, ◌++◌, [], IfOk, OnOk, filter_map, length, map, option_map, option_to_list};
ghost use Rattle.app_machine.specs.Sound.{SoundApp};
ghost use Rattle.app_machine.specs.Summaries.{numbers_from};
ghost use Rattle.app_model.specs.EventBodies.{called, shown_callback};
ghost use Rattle.app_model.specs.Initialisers.{component_initialisers};
ghost use Rattle.runner_choices.specs.Choices.{called_by, clicked};

use app_machine::{App, Lists};
use app_model::{CalledBack, component_initialisers, next_initialiser};
use event_index::{Coming, EventIndex};
use std::alloc::Global;
use vet_base::Memory;

/// What these callbacks run, by their rows.
pub fn called_by<'a>(
    alloc: Global,
    lists: &'a Lists,
    comings: &[Coming],
) -> Result<Vec<CalledBack<'a>>, Memory>
    ensures { IfOk result (λ all. map shown_callback all.items ≡ filter_map (called_by lists.now) comings.now) }
{
    let mut all = Vec::new(alloc);
    for coming in comings {
        add_coming(lists, *coming, &mut all)?;
    }
    Ok(all)
}

fn add_coming<'a>(
    lists: &'a Lists,
    coming: Coming,
    all: &mut Vec<CalledBack<'a>>,
) -> Result<(), Memory>
    ensures { OnOk result (map shown_callback all.new.items
        ≡ map shown_callback all.old.items ++ option_to_list (called_by lists.now coming)) }
{
    match lists.callbacks.get(coming.row as usize) {
        None => Ok(()),
        Some(callback) => {
            all.push(CalledBack {
                sources: callback.sources.as_slice(),
                body: coming.body,
            })?;
            Ok(())
        }
    }
}

/// Adds the clicks that come to the component, by number.
pub fn add_clicks<'a>(
    index: &EventIndex,
    app: &App,
    component: u32,
    all: &mut Vec<CalledBack<'a>>,
) -> Result<(), Memory>
    requires sound { SoundApp app.now }
    requires same { index.now.0 ≡ app.now }
    ensures { OnOk result (map shown_callback all.new.items ≡ map shown_callback all.old.items
        ++ filter_map (clicked app.now component) (numbers_from 0 (length app.now.clicks))) }
{
    for number in 0..app.clicks.len() {
        add_click(index.click_body(component, number as u32), all)?;
    }
    Ok(())
}

fn add_click<'a>(body: Option<u32>, all: &mut Vec<CalledBack<'a>>) -> Result<(), Memory>
    ensures { OnOk result (map shown_callback all.new.items
        ≡ map shown_callback all.old.items ++ option_to_list (option_map (called []) body)) }
{
    match body {
        None => Ok(()),
        Some(body) => {
            all.push(CalledBack { sources: &[], body })?;
            Ok(())
        }
    }
}

/// The initialisers of the component's class, and of those above it, by class upward.
pub fn initialisers_of(alloc: Global, app: &App, component: u32) -> Result<Vec<u32>, Memory>
    requires { SoundApp app.now }
    ensures { IfOk result (λ bodies. bodies.items ≡ component_initialisers app.now component) }
{
    let mut bodies = Vec::new(alloc);
    let mut walk = component_initialisers(app, component);
    while let Some((body, rest)) = next_initialiser(app, walk) {
        bodies.push(body)?;
        walk = rest;
    }
    Ok(bodies)
}
