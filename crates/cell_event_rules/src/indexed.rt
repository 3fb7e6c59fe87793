//! What events are asked by, and the bodies that they run.
ghost use Rattle.std.specs.Prelude.{◌≡◌, OnOk, fold};
ghost use Rattle.app_machine.specs.Sound.{SoundApp};
ghost use Rattle.cell_event_rules.specs.CellEventGiven.{runs};

use crate::receiver::Arrival;
use cell_begin_rules::{Beginning, enter};
use cell_ground::Content;
use event_index::EventIndex;
use register_readers::RegisterReaders;
use rule_ground::Sink;

/// The index of the events of an app with its lists, and where its registers are read.
#[derive(Clone, Copy)]
pub struct Indexed<'a> {
    pub index: &'a EventIndex<'a>,
    pub readers: &'a RegisterReaders<'a>,
}

impl<'a> Indexed<'a> {
    /// The event runs the body, where there is one, with these labelled positions.
    pub fn run<S: Sink>(
        &self,
        arrival: &Arrival,
        sources: &[(u32, u8)],
        body: Option<u32>,
        out: &mut S,
    ) -> Result<(), S::Refusal>
        requires { SoundApp self.now.index.now.0 }
        ensures { OnOk result (out.new ≡ fold S.then out.old (runs self.now.index.now.0 self.now.readers.now arrival.now
            sources.now body)) }
    {
        match body {
            None => Ok(()),
            Some(body) => {
                let begun = Beginning {
                    readers: self.readers,
                    start: arrival.start(body),
                };
                let object = Content::Object(arrival.receiver.site());
                enter(self.index.app(), &begun, sources, object, out)
            }
        }
    }
}
