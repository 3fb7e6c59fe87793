//! What follows from what the library may have: it comes back from each use of a row that gives it back.
ghost use Rattle.std.specs.Prelude.{◌≡◌, OnOk, fold};
ghost use Rattle.app_machine.specs.Sound.{SoundApp};
ghost use Rattle.app_machine.specs.SoundLists.{SoundLists};
ghost use Rattle.library_ground.specs.CallRow.{call_row};
ghost use Rattle.handed_rules.specs.HandedGiven.{label_gives, offer_gives, row_takers, taken_by};
ghost use Rattle.handed_rules.specs.HandedGiven.{taker, takers, where_there};

use crate::offer::{Known, Offer};
use crate::result::{Offered, give_back};
use access_path::Path;
use app_machine::SummaryId;
use event_index::EventIndex;
use fact_rows::{Node, Row};
use library_ground::call_row;
use rule_ground::{Facts, Join, Key, Sink, for_each_hit};
use site_classes::site_class;

/// It comes back from the use of the row at the node.
fn to_use<F: Facts, S: Sink>(
    facts: &F,
    with: &Offered<'_>,
    node: Node,
    uses: SummaryId,
    out: &mut S,
) -> Result<(), S::Refusal>
    requires sound { SoundApp with.now.index.now.0 }
    requires lists { SoundLists with.now.index.now.1 }
    ensures { OnOk result (out.new ≡ fold S.then out.old
        (taken_by with.now.index.now.0 with.now.index.now.1 (F.hits facts.now) with.now.offer with.now.known
        with.now.class.now (call_row with.now.index.now.0 with.now.index.now.1 node uses))) }
{
    match call_row(with.index.app(), with.index.lists(), node, uses) {
        None => Ok(()),
        Some(call) => give_back(facts, with, &call, out),
    }
}

/// It comes back from each use.
#[derive(Drop)]
struct Taker<'a, F> {
    facts: &'a F,
    with: Offered<'a>,
}

impl<'a, F: Facts> Join for Taker<'a, F> {
    ghost ready = { λ j. SoundApp j.with.index.now.0 × SoundLists j.with.index.now.1 };

    ghost gives = { λ j row. taker j.with.index.now.0 j.with.index.now.1 (F.hits j.facts.now) j.with.offer j.with.known
        j.with.class.now row };

    fn give<S: Sink>(&self, row: Row, out: &mut S) -> Result<(), S::Refusal> {
        match row {
            Row::Uses(node, uses) => to_use(self.facts, &self.with, node, uses, out),
            _ => Ok(()),
        }
    }
}

/// From each use of the method row of this number.
fn to_row<F: Facts, S: Sink>(
    facts: &F,
    with: &Offered<'_>,
    row: u32,
    out: &mut S,
) -> Result<(), S::Refusal>
    requires sound { SoundApp with.now.index.now.0 }
    requires lists { SoundLists with.now.index.now.1 }
    ensures { OnOk result (out.new ≡ fold S.then out.old
        (row_takers with.now.index.now.0 with.now.index.now.1 (F.hits facts.now) with.now.offer with.now.known
        with.now.class.now row)) }
{
    let with = Taker { facts, with: *with };
    for_each_hit(facts, &Key::UsesOf(SummaryId::Row(row)), &with, out)
}

fn to_rows<F: Facts, S: Sink>(
    facts: &F,
    with: &Offered<'_>,
    rows: &[u32],
    out: &mut S,
) -> Result<(), S::Refusal>
    requires sound { SoundApp with.now.index.now.0 }
    requires lists { SoundLists with.now.index.now.1 }
    ensures { OnOk result (out.new ≡ fold S.then out.old
        (takers with.now.index.now.0 with.now.index.now.1 (F.hits facts.now) rows.now with.now.offer with.now.known
        with.now.class.now)) }
{
    for row in rows {
        to_row(facts, with, *row, out)?;
    }
    Ok(())
}

/// Where what is known of an offer may come back: from uses of these method rows.
#[derive(Clone, Copy)]
pub struct Takers<'a> {
    pub index: &'a EventIndex<'a>,
    pub rows: &'a [u32],
}

/// What follows of the offer.
pub fn of_offer<F: Facts, S: Sink>(
    at: &Takers<'_>,
    facts: &F,
    offer: Offer,
    known: Known,
    out: &mut S,
) -> Result<(), S::Refusal>
    requires sound { SoundApp at.now.index.now.0 }
    requires lists { SoundLists at.now.index.now.1 }
    ensures { OnOk result (out.new ≡ fold S.then out.old (offer_gives at.now.index.now.0 at.now.index.now.1
        (F.hits facts.now) at.now.rows.now offer known)) }
{
    let index = at.index;
    match site_class(index.app(), index.lists(), offer.site()) {
        None => Ok(()),
        Some(class) => {
            let with = Offered {
                index,
                offer,
                known,
                class,
            };
            to_rows(facts, &with, at.rows, out)
        }
    }
}

/// A label to which an offer leads.
#[derive(Drop)]
struct FromLabel<'a, F> {
    at: Takers<'a>,
    facts: &'a F,
    offer: Offer,
    path: Path,
    label: u8,
}

impl<'a, F: Facts> Join for FromLabel<'a, F> {
    ghost ready = { λ j. SoundApp j.at.index.now.0 × SoundLists j.at.index.now.1 };

    ghost gives = { λ j row. where_there j.at.index.now.0 j.at.index.now.1 (F.hits j.facts.now) j.at.rows.now j.offer
        j.path j.label row };

    fn give<S: Sink>(&self, row: Row, out: &mut S) -> Result<(), S::Refusal> {
        let known = Known::Leads(self.path, self.label);
        match (self.offer, row) {
            (Offer::Handed(_), Row::Handed(_)) => {
                of_offer(&self.at, self.facts, self.offer, known, out)
            }
            (Offer::Live(_, state), Row::Live(_, other)) => {
                if other == state {
                    of_offer(&self.at, self.facts, self.offer, known, out)
                } else {
                    Ok(())
                }
            }
            _ => Ok(()),
        }
    }
}

/// What follows of the label, where what leads to it is there.
pub fn of_label<F: Facts, S: Sink>(
    at: &Takers<'_>,
    facts: &F,
    offer: Offer,
    path: Path,
    label: u8,
    out: &mut S,
) -> Result<(), S::Refusal>
    requires sound { SoundApp at.now.index.now.0 }
    requires lists { SoundLists at.now.index.now.1 }
    ensures { OnOk result (out.new ≡ fold S.then out.old (label_gives at.now.index.now.0 at.now.index.now.1
        (F.hits facts.now) at.now.rows.now offer path label)) }
{
    let with = FromLabel {
        at: *at,
        facts,
        offer,
        path,
        label,
    };
    for_each_hit(facts, &offer.there_key(), &with, out)
}
