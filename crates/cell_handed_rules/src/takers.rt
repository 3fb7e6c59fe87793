//! What follows from what the library may have: it comes back from each use of a row that gives it back.
ghost use Rattle.std.specs.Prelude.{◌≡◌, OnOk, fold};
ghost use Rattle.app_machine.specs.Sound.{SoundApp};
ghost use Rattle.app_machine.specs.SoundLists.{SoundLists};
ghost use Rattle.library_ground.specs.CallRow.{call_row};
ghost use Rattle.cell_handed_rules.specs.CellHandedGiven.{offer_gives, row_takers, taken_by, taker, takers};

use crate::offer::Offer;
use crate::result::{Offered, give_back};
use app_machine::SummaryId;
use event_index::EventIndex;
use fact_rows::{Node, Row};
use library_ground::call_row;
use register_readers::RegisterReaders;
use rule_ground::{Facts, Join, Key, Sink, for_each_hit};
use site_classes::site_class;

/// It comes back from the use of the row at the node.
fn to_use<S: Sink>(
    with: &Offered<'_>,
    node: Node,
    uses: SummaryId,
    out: &mut S,
) -> Result<(), S::Refusal>
    requires sound { SoundApp with.now.index.now.0 }
    requires lists { SoundLists with.now.index.now.1 }
    ensures { OnOk result (out.new ≡ fold S.then out.old
        (taken_by with.now.index.now.0 with.now.readers.now with.now.index.now.1 with.now.offer with.now.class.now
        (call_row with.now.index.now.0 with.now.index.now.1 node uses))) }
{
    match call_row(with.index.app(), with.index.lists(), node, uses) {
        None => Ok(()),
        Some(call) => give_back(with, &call, out),
    }
}

/// It comes back from each use.
#[derive(Drop)]
struct Taker<'a> {
    with: Offered<'a>,
}

impl<'a> Join for Taker<'a> {
    ghost ready = { λ j. SoundApp j.with.index.now.0 × SoundLists j.with.index.now.1 };

    ghost gives = { λ j row. taker j.with.index.now.0 j.with.readers.now j.with.index.now.1 j.with.offer
        j.with.class.now row };

    fn give<S: Sink>(&self, row: Row, out: &mut S) -> Result<(), S::Refusal> {
        match row {
            Row::Uses(node, uses) => to_use(&self.with, node, uses, out),
            _ => Ok(()),
        }
    }
}

/// From each use of the method row of this number.
fn to_row<F: Facts, S: Sink>(
    facts: &F,
    with: &Offered<'_>,
    row: u32,
    out: &mut S,
) -> Result<(), S::Refusal>
    requires sound { SoundApp with.now.index.now.0 }
    requires lists { SoundLists with.now.index.now.1 }
    ensures { OnOk result (out.new ≡ fold S.then out.old
        (row_takers with.now.index.now.0 with.now.readers.now with.now.index.now.1 (F.hits facts.now) with.now.offer
        with.now.class.now row)) }
{
    let with = Taker { with: *with };
    for_each_hit(facts, &Key::UsesOf(SummaryId::Row(row)), &with, out)
}

fn to_rows<F: Facts, S: Sink>(
    facts: &F,
    with: &Offered<'_>,
    rows: &[u32],
    out: &mut S,
) -> Result<(), S::Refusal>
    requires sound { SoundApp with.now.index.now.0 }
    requires lists { SoundLists with.now.index.now.1 }
    ensures { OnOk result (out.new ≡ fold S.then out.old
        (takers with.now.index.now.0 with.now.readers.now with.now.index.now.1 (F.hits facts.now) rows.now
        with.now.offer with.now.class.now)) }
{
    for row in rows {
        to_row(facts, with, *row, out)?;
    }
    Ok(())
}

/// Where an offer may come back: from uses of these method rows.
#[derive(Clone, Copy)]
pub struct Takers<'a> {
    pub index: &'a EventIndex<'a>,
    pub readers: &'a RegisterReaders<'a>,
    pub rows: &'a [u32],
}

/// What follows of the offer.
pub fn of_offer<F: Facts, S: Sink>(
    at: &Takers<'_>,
    facts: &F,
    offer: Offer,
    out: &mut S,
) -> Result<(), S::Refusal>
    requires sound { SoundApp at.now.index.now.0 }
    requires lists { SoundLists at.now.index.now.1 }
    ensures { OnOk result (out.new ≡ fold S.then out.old (offer_gives at.now.index.now.0 at.now.readers.now
        at.now.index.now.1 (F.hits facts.now) at.now.rows.now offer)) }
{
    let index = at.index;
    match site_class(index.app(), index.lists(), offer.site()) {
        None => Ok(()),
        Some(class) => {
            let with = Offered {
                index,
                readers: at.readers,
                offer,
                class,
            };
            to_rows(facts, &with, at.rows, out)
        }
    }
}
