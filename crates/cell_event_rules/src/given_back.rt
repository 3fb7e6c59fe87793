//! Rule 45: handed objects come back as parameters of events.
ghost use Rattle.std.specs.Prelude.{◌≡◌, ◌+◌, ◌-◌, ◌<◌, ◌^◌, ℕ, IsTrue, OnOk, Some, false, fold, slice_get};
ghost use Rattle.app_machine.specs.declared.lists.Lists.{Lists};
ghost use Rattle.app_machine.specs.Names.{Name as NameOf, is_reference};
ghost use Rattle.app_machine.specs.Sound.{SoundApp};
ghost use Rattle.rule_ground.specs.Below.{for_below};
ghost use Rattle.event_rules.specs.GivenBack.{TakesNone};
ghost use Rattle.cell_event_rules.specs.CellGivenBack.{back, back_index, back_register};

use crate::numbers;
use app_machine::{App, Method};
use app_parts::is_reference;
use begin_rules::first_argument;
use cell_ground::{Content, come_to};
use event_index::Taker;
use fact_rows::{Activation, Row, Site};
use register_readers::RegisterReaders;
use rule_ground::{Inference, Premises, Sink, entry};
use vet_base::Name;

/// A handed object of a class that comes back to an event.
#[derive(Clone, Copy)]
pub struct Back<'a, 'b> {
    pub taker: &'a Taker<'b>,
    pub readers: &'a RegisterReaders<'a>,
    pub site: Site,
    pub by: Activation,
}

/// The object comes to the register.
fn to_register<S: Sink>(with: &Back<'_, '_>, register: u32, out: &mut S) -> Result<(), S::Refusal>
    ensures { OnOk result (out.new ≡ fold S.then out.old (back_register with.now.readers.now with.now.site with.now.by
        register)) }
{
    let first = entry(with.by);
    let inference = Inference {
        rule: numbers::GIVEN_BACK,
        premises: Premises::of_two(Row::Reached(first), Row::Handed(with.site)),
    };
    let object = Content::Object(with.site);
    come_to(with.readers, inference, object, first, register, &[0], out)
}

/// The register of this index among those of the arguments, where its type takes the class.
fn to_index<S: Sink>(
    with: &Back<'_, '_>,
    method: &Method,
    index: u32,
    out: &mut S,
) -> Result<(), S::Refusal>
    requires sound { SoundApp with.now.taker.now.0 }
    requires there { slice_get with.now.taker.now.0.methods with.now.by.method ≡ Some method.now }
    requires fits { (method.now.registers - method.now.ins) + index < 2 ^ 32 }
    ensures { OnOk result (out.new ≡ fold S.then out.old
        (back_index with.now.taker.now.0 with.now.readers.now with.now.taker.now.1 with.now.site with.now.taker.now.2
        with.now.by method.now index)) }
{
    if with.taker.takes(with.by.method, method, index) {
        to_register(with, first_argument(method) + index, out)
    } else {
        Ok(())
    }
}

fn to_indices<S: Sink>(with: &Back<'_, '_>, method: &Method, out: &mut S) -> Result<(), S::Refusal>
    requires sound { SoundApp with.now.taker.now.0 }
    requires there { slice_get with.now.taker.now.0.methods with.now.by.method ≡ Some method.now }
    requires fits { (method.now.registers - method.now.ins) + method.now.ins < 2 ^ 32 }
    ensures { OnOk result
        (out.new ≡ fold S.then out.old
        (for_below (back_index with.now.taker.now.0 with.now.readers.now with.now.taker.now.1 with.now.site
        with.now.taker.now.2 with.now.by method.now) method.now.ins)) }
{
    for index in 0..method.ins {
        to_index(with, method, index, out)?;
    }
    Ok(())
}

/// Each parameter whose type takes the class holds the object.
pub fn give_back<S: Sink>(with: &Back<'_, '_>, out: &mut S) -> Result<(), S::Refusal>
    requires { SoundApp with.now.taker.now.0 }
    ensures { OnOk result (out.new ≡ fold S.then out.old (back with.now.taker.now.0 with.now.readers.now
        with.now.taker.now.1 with.now.site with.now.taker.now.2 with.now.by)) }
{
    match with.taker.app().methods.get(with.by.method as usize) {
        None => Ok(()),
        Some(method) => {
            if method.is_native {
                Ok(())
            } else {
                to_indices(with, method, out)
            }
        }
    }
}

/// Whether none of the parameters is a reference.
#[tactic(auto, using(event_rules::proofs::NothingBack::no_references, event_rules::proofs::NothingBack::one_more_kind, event_rules::proofs::NothingBack::all_kinds))]
fn has_no_references(params: &[Name]) -> bool
    ensures { IsTrue result → (i : ℕ) (type : NameOf) → slice_get params.now i ≡ Some type → is_reference type ≡ false }
{
    for kind in params {
        if is_reference(kind) {
            return false;
        }
    }
    true
}

/// Whether the method takes no object, of whatever class.
#[tactic(auto, using(event_rules::proofs::NothingBack::takes_none, event_rules::proofs::NothingBack::no_method))]
pub fn takes_nothing(app: &App, method: u32) -> bool
    ensures { IsTrue result → (lists : Lists) (class : NameOf) → TakesNone app.now lists class method }
{
    match app.methods.get(method as usize) {
        Some(method) => has_no_references(method.at.proto.params.as_slice()),
        None => true,
    }
}
