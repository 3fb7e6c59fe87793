//! Rules 37 to 39 of a call.
ghost use Rattle.std.specs.Prelude.{◌≡◌, OnOk, fold};
ghost use Rattle.library_ground.specs.CallRow.{shown_call};
ghost use Rattle.cell_library_rules.specs.CellHeapGiven.{at_position, heap_gives, position_gives, writes_gives};

use crate::copies::Copies;
use crate::pairs::{Position, for_each_from, for_each_put};
use crate::puts::Puts;
use crate::stores::Stores;
use cell_library_value_rules::may_stand;
use library_ground::{AtPlace, LibraryCall, Pins, for_each_place};
use rule_ground::{Facts, Sink};

/// The puts and stores of a position.
fn write<F: Facts, S: Sink>(position: &Position<'_, F>, out: &mut S) -> Result<(), S::Refusal>
    ensures { OnOk result (out.new ≡ fold S.then out.old (writes_gives (F.hits position.now.facts.now) position.now.pins
        (shown_call position.now.call) position.now.number position.now.register)) }
{
    for_each_put(&position.call, position.number, &Puts(position), out)?;
    if position.pins.object.is_none() {
        for_each_from(
            position.call.stores(),
            position.number,
            &Stores(position),
            out,
        )
    } else {
        Ok(())
    }
}

/// What a position gives.
fn of_position<F: Facts, S: Sink>(position: &Position<'_, F>, out: &mut S) -> Result<(), S::Refusal>
    ensures { OnOk result
        (out.new ≡ fold S.then out.old (position_gives (F.hits position.now.facts.now) position.now.pins
        (shown_call position.now.call) position.now.number position.now.register)) }
{
    if position.pins.cell.is_none() {
        write(position, out)?;
    }
    for_each_from(
        position.call.copies(),
        position.number,
        &Copies(position),
        out,
    )
}

/// Each position of the call.
#[derive(Drop)]
struct OfPosition<'a, F> {
    facts: &'a F,
    call: LibraryCall<'a>,
    pins: Pins,
}

impl<'a, F: Facts> AtPlace for OfPosition<'a, F> {
    ghost ready = { λ j. Unit {0} };

    ghost gives = { λ j position register. at_position (F.hits j.facts.now) j.pins
        (shown_call j.call) position register };

    fn give<S: Sink>(&self, position: usize, register: u32, out: &mut S) -> Result<(), S::Refusal> {
        if may_stand(self.pins.value, self.call.node, register) {
            let place = Position {
                facts: self.facts,
                call: self.call,
                pins: self.pins,
                number: position,
                register,
            };
            of_position(&place, out)
        } else {
            Ok(())
        }
    }
}

/// What follows from the call by rules 37 to 39, with the premises that are known.
pub fn heap_rules<F: Facts, S: Sink>(
    facts: &F,
    pins: &Pins,
    call: &LibraryCall<'_>,
    out: &mut S,
) -> Result<(), S::Refusal>
    ensures { OnOk result (out.new ≡ fold S.then out.old (heap_gives (F.hits facts.now) pins.now
        (shown_call call.now))) }
{
    let at = OfPosition {
        facts,
        call: *call,
        pins: *pins,
    };
    for_each_place(call, &at, out)
}
