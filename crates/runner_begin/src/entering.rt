ghost use Rattle.std.specs.Prelude.{◌≡◌, ◌<◌, ◌++◌, ◌∷◌, [], IfOk, OnOk, if◌then◌else◌, length, map};
ghost use Rattle.app_machine.specs.Events.{layout, layout_from};
ghost use Rattle.app_machine.specs.Sound.{SoundApp};
ghost use Rattle.app_machine.specs.State.{value_or_blank};
ghost use Rattle.played_machine.specs.Calling.{code_of};
ghost use Rattle.runner_begin.specs.Begun.{code_at, frames_at, frames_with, receiver_by, types_of};
ghost use Rattle.runner_calls.specs.Frames.{frames_of};
ghost use Rattle.runner_state.specs.Shown.{value_of};

use crate::event::Received;
use crate::labelling::labels_at;
use app_machine::{App, Method};
use app_parts::is_wide;
use runner_calls::{Frames, code_of};
use runner_library::value_at;
use runner_state::Held;
use std::alloc::Global;
use vet_base::{Memory, Name};

/// The types of the parameters of the body, where there is one with code.
pub fn kinds_of(app: &App, body: Option<u32>) -> &[Name]
    requires { SoundApp app.now }
    ensures same { result.now ≡ types_of (code_at app.now body) }
    ensures few { length result.now < 4294967295 }
{
    match body {
        None => &[],
        Some(body) => kinds_in(app, body),
    }
}

fn kinds_in(app: &App, body: u32) -> &[Name]
    requires { SoundApp app.now }
    ensures same { result.now ≡ types_of (code_of app.now body) }
    ensures few { length result.now < 4294967295 }
{
    match code_of(app, body) {
        None => &[],
        Some(method) => method.at.proto.params.as_slice(),
    }
}

/// The body begins, where there is one with code, with the receiver and these parameters.
pub fn enter(
    alloc: Global,
    app: &App,
    frames: &mut Frames,
    received: Received,
    parameters: &[Held],
) -> Result<(), Memory>
    requires app { SoundApp app.now }
    requires idle { frames_of frames.old ≡ [] }
    ensures { OnOk result (frames_of frames.new ≡ frames_at app.now received.entry.body
        (receiver_by received.entry.place received.entry.sources.now ∷ map value_of parameters.now)) }
{
    match received.body {
        None => Ok(()),
        Some(body) => {
            let values = values_of(alloc, received, parameters)?;
            enter_body(alloc, app, frames, body, values.as_slice())?;
            Ok(())
        }
    }
}

/// The receiver, and these parameters behind it.
fn values_of(alloc: Global, received: Received, parameters: &[Held]) -> Result<Vec<Held>, Memory>
    ensures { IfOk result (λ values. map value_of values.items
        ≡ receiver_by received.entry.place received.entry.sources.now ∷ map value_of parameters.now) }
{
    let mut values = Vec::new(alloc);
    values.push(Held {
        place: received.place,
        labels: labels_at(received.sources, 0),
    })?;
    values.extend_from_slice(parameters)?;
    Ok(values)
}

/// The body begins, where it has code, with these values of its positions.
fn enter_body(
    alloc: Global,
    app: &App,
    frames: &mut Frames,
    body: u32,
    values: &[Held],
) -> Result<(), Memory>
    requires app { SoundApp app.now }
    requires idle { frames_of frames.old ≡ [] }
    ensures { OnOk result (frames_of frames.new ≡ frames_with body (code_of app.now body) (map value_of values.now)) }
{
    match code_of(app, body) {
        None => Ok(()),
        Some(method) => {
            let arguments = arguments_of(alloc, method, values)?;
            frames.enter(alloc, app, body, arguments.as_slice(), false)?;
            Ok(())
        }
    }
}

/// The values of the argument registers.
fn arguments_of(alloc: Global, method: &Method, values: &[Held]) -> Result<Vec<Held>, Memory>
    ensures { IfOk result (λ arguments. map value_of arguments.items
        ≡ map (value_or_blank (map value_of values.now)) (layout method.now.at.proto.params)) }
{
    let mut arguments = Vec::new(alloc);
    arguments.push(value_at(values, 0))?;
    add_parameters(method.at.proto.params.as_slice(), values, &mut arguments)?;
    Ok(arguments)
}

/// Adds the values of the registers of these parameters: a wide one has two.
fn add_parameters(kinds: &[Name], values: &[Held], arguments: &mut Vec<Held>) -> Result<(), Memory>
    ensures { OnOk result (map value_of arguments.new.items ≡ map value_of arguments.old.items
        ++ map (value_or_blank (map value_of values.now)) (layout_from 1 kinds.now)) }
{
    for i in 0..kinds.len() {
        let value = value_at(values, i + 1);
        add_value(value, is_wide(&kinds[i]), arguments)?;
    }
    Ok(())
}

fn add_value(value: Held, wide: bool, arguments: &mut Vec<Held>) -> Result<(), Memory>
    ensures { OnOk result (map value_of arguments.new.items ≡ map value_of arguments.old.items
        ++ (if wide then value_of value ∷ value_of value ∷ [] else value_of value ∷ [])) }
{
    arguments.push(value)?;
    add_second(value, wide, arguments)?;
    Ok(())
}

fn add_second(value: Held, wide: bool, arguments: &mut Vec<Held>) -> Result<(), Memory>
    ensures { OnOk result (map value_of arguments.new.items ≡ map value_of arguments.old.items
        ++ (if wide then value_of value ∷ [] else [])) }
{
    if !wide {
        return Ok(());
    }
    arguments.push(value)?;
    Ok(())
}
