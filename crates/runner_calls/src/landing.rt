ghost use Rattle.std.specs.Prelude.{◌≡◌, option_map, slice_get};
ghost use Rattle.app_machine.specs.Lookups.{step_at};
ghost use Rattle.app_machine.specs.Sound.{SoundApp};
ghost use Rattle.played_machine.specs.Drawing.{one_of};
ghost use Rattle.played_machine.specs.Local.{catches_of};
ghost use Rattle.runner_calls.specs.Frames.{frames_of};
ghost use Rattle.runner_calls.specs.Landing.{handlers, lands};
ghost use Rattle.runner_state.specs.Shown.{bytes_behind, frame_in};

use crate::frames::Frames;
use app_machine::App;
use app_model::step_at;
use runner_state::{Called, Script};

/// Where a raised value is caught.
#[derive(Clone, Copy)]
pub struct Landing {
    /// How many frames are below the one that catches it.
    pub below: usize,
    /// The address of the handler.
    pub pc: u32,
}

/// Where a value that is raised now goes: to a handler, or out of all frames. In each frame the next byte
/// chooses among its handlers and going upward. None exactly where the bytes are too few.
pub fn lands<'s>(
    app: &App,
    frames: &Frames,
    script: Script<'s>,
) -> Option<(Option<Landing>, Script<'s>)>
    requires { SoundApp app.now }
    ensures { option_map bytes_behind result ≡ lands app.now (frames_of frames.now) script.entry.left.now }
{
    let mut below = frames.called.len();
    let mut left = script;
    while below > 0 {
        below -= 1;
        let (handler, rest) = drawn_handler(app, &frames.called[below], left)?;
        if let Some(pc) = handler {
            return Some((Some(Landing { below, pc }), rest));
        }
        left = rest;
    }
    Some((None, left))
}

/// One of the handlers that cover the frame's instruction, or none.
fn drawn_handler<'s>(
    app: &App,
    frame: &Called,
    script: Script<'s>,
) -> Option<(Option<u32>, Script<'s>)>
    requires { SoundApp app.now }
    ensures { option_map bytes_behind result ≡ one_of (handlers app.now (frame_in frame.now)) script.entry.left.now }
{
    let catches = catches_of(app, frame);
    match script.draw(catches.len() + 1) {
        None => None,
        Some((i, left)) => Some((handler_at(catches, i), left)),
    }
}

fn handler_at(catches: &[u32], index: usize) -> Option<u32>
    ensures { result ≡ slice_get catches.now index }
{
    catches.get(index).copied()
}

/// The handlers that cover the frame's instruction.
fn catches_of<'a>(app: &'a App, frame: &Called) -> &'a [u32]
    requires { SoundApp app.now }
    ensures { result.now ≡ catches_of (step_at app.now frame.now.method frame.now.pc) }
{
    match step_at(app, frame.method, frame.pc) {
        Some(step) => step.catches.as_slice(),
        None => &[],
    }
}
