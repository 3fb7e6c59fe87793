//! Rule 45, joined: which handed objects come back to which events.
ghost use Rattle.std.specs.Prelude.{◌≡◌, OnOk, fold, flat_map};
ghost use Rattle.std.specs.Option.{option_copied};
ghost use Rattle.app_machine.specs.Sound.{SoundApp};
ghost use Rattle.event_rules.specs.GivenBack.{any_handed, entry_gives, entry_takes, handed_back, is_handed};
ghost use Rattle.event_rules.specs.GivenBack.{label_back, label_handed, label_takes, pair_gives};

use crate::given_back::{Back, give_back, takes_nothing};
use crate::handed::HandedObject;
use crate::known::Known;
use event_index::{EventIndex, Taker};
use fact_rows::{Activation, Row, Site};
use rule_ground::{Facts, Join, Key, Sink, for_each_hit};
use site_classes::site_class;

/// A site of handed objects with its class, as it is asked for.
#[derive(Clone, Copy)]
struct Objects<'a, 'b> {
    taker: &'a Taker<'b>,
    site: Site,
}

impl<'a, 'b> Objects<'a, 'b> {
    /// What is known of them comes back to an event.
    fn back(&self, known: Known, by: Activation) -> Back<'a, 'b>
        ensures { result ≡ record {
          taker = self.now.taker;
          object = record { site = self.now.site; known = known };
          by = by;
        } }
    {
        Back {
            taker: self.taker,
            object: HandedObject {
                site: self.site,
                known,
            },
            by,
        }
    }
}

/// Each label to which they lead comes back to the event.
#[derive(Drop)]
struct Labels<'a, 'b> {
    objects: Objects<'a, 'b>,
    by: Activation,
}

impl<'a, 'b> Join for Labels<'a, 'b> {
    ghost ready = { λ j. SoundApp j.objects.taker.now.0 };

    ghost gives = { λ j row. label_back j.objects.taker.now.0 j.objects.taker.now.1 j.objects.site j.objects.taker.now.2
        j.by
        row };

    fn give<S: Sink>(&self, row: Row, out: &mut S) -> Result<(), S::Refusal> {
        match row {
            Row::HandedTaint(_, path, label) => give_back(
                &self.objects.back(Known::Leads(path, label), self.by),
                out,
            ),
            _ => Ok(()),
        }
    }
}

/// They come back to the event, with all to which they lead.
fn pair<F: Facts, S: Sink>(
    facts: &F,
    objects: &Objects<'_, '_>,
    by: Activation,
    out: &mut S,
) -> Result<(), S::Refusal>
    requires { SoundApp objects.now.taker.now.0 }
    ensures { OnOk result (out.new ≡ fold S.then out.old (pair_gives objects.now.taker.now.0 objects.now.taker.now.1
        (F.hits facts.now) objects.now.site objects.now.taker.now.2 by)) }
{
    if takes_nothing(objects.taker.app(), by.method) {
        return Ok(());
    }
    give_back(&objects.back(Known::There, by), out)?;
    for_each_hit(
        facts,
        &Key::HandedTaintsOf(objects.site),
        &Labels {
            objects: *objects,
            by,
        },
        out,
    )
}

/// Handed objects come back to the event.
#[derive(Drop)]
struct ToEvent<'a, F> {
    facts: &'a F,
    index: &'a EventIndex<'a>,
    by: Activation,
}

impl<'a, F: Facts> Join for ToEvent<'a, F> {
    ghost ready = { λ j. SoundApp j.index.now.0 };

    ghost gives = { λ j row. any_handed j.index.now.0 j.index.now.1 (F.hits j.facts.now) j.by row };

    fn give<S: Sink>(&self, row: Row, out: &mut S) -> Result<(), S::Refusal> {
        let index = self.index;
        match row {
            Row::Handed(site) => match site_class(index.app(), index.lists(), site) {
                None => Ok(()),
                Some(class) => {
                    let taker = &index.taker(class);
                    pair(self.facts, &Objects { taker, site }, self.by, out)
                }
            },
            _ => Ok(()),
        }
    }
}

/// What follows where the event is reached.
pub fn reach_event<F: Facts, S: Sink>(
    index: &EventIndex<'_>,
    facts: &F,
    by: Activation,
    out: &mut S,
) -> Result<(), S::Refusal>
    requires { SoundApp index.now.0 }
    ensures { OnOk result (out.new ≡ fold S.then out.old (entry_gives index.now.0 index.now.1 (F.hits facts.now) by)) }
{
    if takes_nothing(index.app(), by.method) {
        return Ok(());
    }
    for_each_hit(facts, &Key::AnyHanded, &ToEvent { facts, index, by }, out)
}

/// The objects come back to events.
#[derive(Drop)]
struct FromObjects<'f, 'a, 'b, F> {
    facts: &'f F,
    objects: Objects<'a, 'b>,
}

impl<'f, 'a, 'b, F: Facts> Join for FromObjects<'f, 'a, 'b, F> {
    ghost ready = { λ j. SoundApp j.objects.taker.now.0 };

    ghost gives = { λ j row. entry_takes j.objects.taker.now.0 j.objects.taker.now.1 (F.hits j.facts.now) j.objects.site
        j.objects.taker.now.2 row };

    fn give<S: Sink>(&self, row: Row, out: &mut S) -> Result<(), S::Refusal> {
        match row {
            Row::Reached(node) => pair(self.facts, &self.objects, node.by, out),
            _ => Ok(()),
        }
    }
}

/// What comes back to events where objects of the site are handed.
pub fn hand_back<F: Facts, S: Sink>(
    index: &EventIndex<'_>,
    facts: &F,
    site: Site,
    out: &mut S,
) -> Result<(), S::Refusal>
    requires { SoundApp index.now.0 }
    ensures { OnOk result (out.new ≡ fold S.then out.old
        (handed_back index.now.0 index.now.1 (F.hits facts.now) site)) }
{
    match site_class(index.app(), index.lists(), site) {
        None => Ok(()),
        Some(class) => {
            let taker = &index.taker(class);
            let objects = Objects { taker, site };
            for_each_hit(
                facts,
                &Key::EventEntries,
                &FromObjects { facts, objects },
                out,
            )
        }
    }
}

/// The label comes back to events.
#[derive(Drop)]
struct FromLabel<'a, 'b> {
    objects: Objects<'a, 'b>,
    known: Known,
}

impl<'a, 'b> Join for FromLabel<'a, 'b> {
    ghost ready = { λ j. SoundApp j.objects.taker.now.0 };

    ghost gives = { λ j row. label_takes j.objects.taker.now.0 j.objects.taker.now.1
        (record { site = j.objects.site; known = j.known }) j.objects.taker.now.2 row };

    fn give<S: Sink>(&self, row: Row, out: &mut S) -> Result<(), S::Refusal> {
        match row {
            Row::Reached(node) => give_back(&self.objects.back(self.known, node.by), out),
            _ => Ok(()),
        }
    }
}

/// It does so where the objects are handed.
#[derive(Drop)]
struct WhereHanded<'f, 'a, 'b, F> {
    facts: &'f F,
    objects: Objects<'a, 'b>,
    known: Known,
}

impl<'f, 'a, 'b, F: Facts> Join for WhereHanded<'f, 'a, 'b, F> {
    ghost ready = { λ j. SoundApp j.objects.taker.now.0 };

    ghost gives = { λ j row. is_handed j.objects.taker.now.0 j.objects.taker.now.1 (F.hits j.facts.now)
        (record { site = j.objects.site; known = j.known }) j.objects.taker.now.2 row };

    fn give<S: Sink>(&self, row: Row, out: &mut S) -> Result<(), S::Refusal> {
        match row {
            Row::Handed(_) => {
                let with = FromLabel {
                    objects: self.objects,
                    known: self.known,
                };
                for_each_hit(self.facts, &Key::EventEntries, &with, out)
            }
            _ => Ok(()),
        }
    }
}

/// What comes back to events where handed objects lead to a label.
pub fn hand_label_back<F: Facts, S: Sink>(
    index: &EventIndex<'_>,
    facts: &F,
    object: HandedObject,
    out: &mut S,
) -> Result<(), S::Refusal>
    requires { SoundApp index.now.0 }
    ensures { OnOk result (out.new ≡ fold S.then out.old
        (label_handed index.now.0 index.now.1 (F.hits facts.now) object)) }
{
    match site_class(index.app(), index.lists(), object.site) {
        None => Ok(()),
        Some(class) => {
            let taker = &index.taker(class);
            let objects = Objects {
                taker,
                site: object.site,
            };
            let with = WhereHanded {
                facts,
                objects,
                known: object.known,
            };
            for_each_hit(facts, &Key::HandedOf(object.site), &with, out)
        }
    }
}
