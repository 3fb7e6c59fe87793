//! What follows from the use of a row, with the premises that are known.
ghost use Rattle.std.specs.Prelude.{◌≡◌, OnOk, fold};
ghost use Rattle.app_machine.specs.Sound.{SoundApp};
ghost use Rattle.app_machine.specs.SoundLists.{SoundLists};
ghost use Rattle.library_ground.specs.CallRow.{call_row, shown_call};
ghost use Rattle.cell_library_rules.specs.CellLibraryGiven.{call_gives, holder_gives, pointer_gives, said_gives};
ghost use Rattle.cell_library_rules.specs.CellLibraryGiven.{used_gives, user_gives};

use crate::pins::{cell_pin, object_pin, value_pin};
use crate::positions::heap_rules;
use app_machine::{App, Lists, SummaryId};
use cell_library_value_rules::{Called, value_rules};
use fact_rows::{Node, Row, Site};
use library_ground::{Pins, call_row};
use register_readers::RegisterReaders;
use rule_ground::{Facts, Join, Key, Sink, for_each_hit};

/// An app, where its registers are read, and the lists.
#[derive(Clone, Copy)]
pub struct Ground<'a> {
    pub app: &'a App,
    pub readers: &'a RegisterReaders<'a>,
    pub lists: &'a Lists,
}

/// The use of a row at a node, with the premises that are known.
#[derive(Clone, Copy)]
pub struct Use {
    pub node: Node,
    pub uses: SummaryId,
    pub pins: Pins,
}

/// What a call gives.
fn of_call<F: Facts, S: Sink>(
    facts: &F,
    pins: &Pins,
    called: &Called<'_>,
    out: &mut S,
) -> Result<(), S::Refusal>
    requires { SoundApp called.now.app.now }
    ensures { OnOk result (out.new ≡ fold S.then out.old (call_gives called.now.app.now called.now.readers.now
        (F.hits facts.now) pins.now (shown_call called.now.call))) }
{
    value_rules(facts, pins, called, out)?;
    heap_rules(facts, pins, &called.call, out)
}

/// What a use gives.
pub fn of_use<F: Facts, S: Sink>(
    ground: &Ground<'_>,
    facts: &F,
    at: Use,
    out: &mut S,
) -> Result<(), S::Refusal>
    requires sound { SoundApp ground.now.app.now }
    requires lists { SoundLists ground.now.lists.now }
    ensures { OnOk result (out.new ≡ fold S.then out.old (used_gives ground.now.app.now ground.now.readers.now
        (F.hits facts.now) at.pins (call_row ground.now.app.now ground.now.lists.now at.node at.uses))) }
{
    match call_row(ground.app, ground.lists, at.node, at.uses) {
        None => Ok(()),
        Some(call) => {
            let called = Called {
                app: ground.app,
                readers: ground.readers,
                call,
            };
            of_call(facts, &at.pins, &called, out)
        }
    }
}

/// Each use of a row.
#[derive(Drop)]
pub struct User<'a, F> {
    pub ground: Ground<'a>,
    pub facts: &'a F,
    pub pins: Pins,
}

impl<'a, F: Facts> Join for User<'a, F> {
    ghost ready = { λ j. SoundApp j.ground.app.now × SoundLists j.ground.lists.now };

    ghost gives = { λ j row. user_gives j.ground.app.now j.ground.readers.now j.ground.lists.now (F.hits j.facts.now)
        j.pins row };

    fn give<S: Sink>(&self, row: Row, out: &mut S) -> Result<(), S::Refusal> {
        match row {
            Row::Uses(node, uses) => {
                let pins = self.pins;
                of_use(&self.ground, self.facts, Use { node, uses, pins }, out)
            }
            _ => Ok(()),
        }
    }
}

/// Each use of a row with an object, which is a value or takes one in.
#[derive(Drop)]
pub struct Holder<'a, F> {
    pub ground: Ground<'a>,
    pub facts: &'a F,
    pub object: Row,
}

impl<'a, F: Facts> Join for Holder<'a, F> {
    ghost ready = { λ j. SoundApp j.ground.app.now × SoundLists j.ground.lists.now };

    ghost gives = { λ j row. holder_gives j.ground.app.now j.ground.readers.now j.ground.lists.now (F.hits j.facts.now)
        j.object row };

    fn give<S: Sink>(&self, row: Row, out: &mut S) -> Result<(), S::Refusal> {
        match row {
            Row::Uses(node, uses) => {
                let pins = value_pin(self.object);
                of_use(&self.ground, self.facts, Use { node, uses, pins }, out)?;
                let pins = object_pin(self.object);
                of_use(&self.ground, self.facts, Use { node, uses, pins }, out)
            }
            _ => Ok(()),
        }
    }
}

/// Each register that holds an object of which something is said.
#[derive(Drop)]
struct Pointer<'a, F> {
    ground: Ground<'a>,
    facts: &'a F,
    said: Row,
}

impl<'a, F: Facts> Join for Pointer<'a, F> {
    ghost ready = { λ j. SoundApp j.ground.app.now × SoundLists j.ground.lists.now };

    ghost gives = { λ j row. pointer_gives j.ground.app.now j.ground.readers.now j.ground.lists.now (F.hits j.facts.now)
        j.said row };

    fn give<S: Sink>(&self, row: Row, out: &mut S) -> Result<(), S::Refusal> {
        match row {
            Row::Points(node, _, _) => {
                let with = User {
                    ground: self.ground,
                    facts: self.facts,
                    pins: cell_pin(row, self.said),
                };
                for_each_hit(self.facts, &Key::UsesAt(node), &with, out)
            }
            _ => Ok(()),
        }
    }
}

/// What follows from what is said of the objects of the site.
pub fn of_said<F: Facts, S: Sink>(
    ground: &Ground<'_>,
    facts: &F,
    site: Site,
    said: Row,
    out: &mut S,
) -> Result<(), S::Refusal>
    requires sound { SoundApp ground.now.app.now }
    requires lists { SoundLists ground.now.lists.now }
    ensures { OnOk result (out.new ≡ fold S.then out.old (said_gives ground.now.app.now ground.now.readers.now
        ground.now.lists.now (F.hits facts.now) site said)) }
{
    let with = Pointer {
        ground: *ground,
        facts,
        said,
    };
    for_each_hit(facts, &Key::PointsTo(site), &with, out)
}
