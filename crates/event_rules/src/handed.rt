//! Rule 43: callbacks come to handed objects.
ghost use Rattle.std.specs.Prelude.{◌≡◌, OnOk, fold};
ghost use Rattle.std.specs.Option.{option_copied};
ghost use Rattle.app_machine.specs.Sound.{SoundApp};
ghost use Rattle.event_rules.specs.EventGiven.{handed_arrival, handed_on};

use crate::arrival::{Arrival, On};
use crate::known::Known;
use crate::numbers;
use event_index::EventIndex;
use fact_rows::Site;
use rule_ground::{Premises, Sink};
use site_classes::site_class;

/// A handed object, and what is known of it.
#[derive(Clone, Copy)]
pub struct HandedObject {
    pub site: Site,
    pub known: Known,
}

/// By which rule and premises callbacks come to the object, and what their receiver then holds.
fn arrival(object: HandedObject) -> Arrival
    ensures { result ≡ handed_arrival object }
{
    Arrival {
        rule: numbers::HANDED,
        premises: Premises::of_one(object.known.handed(object.site)),
        content: object.known.content(object.site),
    }
}

/// What comes to the object, where it has a class.
pub fn come_to_handed<S: Sink>(
    index: &EventIndex<'_>,
    object: HandedObject,
    out: &mut S,
) -> Result<(), S::Refusal>
    requires { SoundApp index.now.0 }
    ensures { OnOk result (out.new ≡ fold S.then out.old (handed_on index.now.0 index.now.1 object)) }
{
    match site_class(index.app(), index.lists(), object.site) {
        None => Ok(()),
        Some(class) => arrival(object).call_all(index, On::Handed, class, out),
    }
}
