//! Rule 45, joined: which handed objects come back to which events.
ghost use Rattle.std.specs.Prelude.{◌≡◌, OnOk, fold};
ghost use Rattle.app_machine.specs.Sound.{SoundApp};
ghost use Rattle.flow_rules.specs.Sites.{site_class};
ghost use Rattle.cell_event_rules.specs.CellGivenBack.{any_handed, back_as, entry_gives, entry_takes, handed_back};
ghost use Rattle.cell_event_rules.specs.CellGivenBack.{handed_back_as};

use crate::given_back::{Back, give_back, takes_nothing};
use crate::indexed::Indexed;
use event_index::Taker;
use fact_rows::{Activation, Row, Site};
use register_readers::RegisterReaders;
use rule_ground::{Facts, Join, Key, Sink, for_each_hit};
use site_classes::site_class;
use vet_base::Name;

/// The objects come back to the event.
fn to_event<S: Sink>(
    with: &Indexed<'_>,
    site: Site,
    by: Activation,
    out: &mut S,
) -> Result<(), S::Refusal>
    requires { SoundApp with.now.index.now.0 }
    ensures { OnOk result (out.new ≡ fold S.then out.old (back_as with.now.index.now.0 with.now.readers.now
        with.now.index.now.1 site (site_class with.now.index.now.0 with.now.index.now.1 site) by)) }
{
    let index = with.index;
    match site_class(index.app(), index.lists(), site) {
        None => Ok(()),
        Some(class) => {
            let taker = &index.taker(class);
            let readers = with.readers;
            let back = Back {
                taker,
                readers,
                site,
                by,
            };
            give_back(&back, out)
        }
    }
}

/// Handed objects come back to the event.
#[derive(Drop)]
struct ToEvent<'a> {
    with: Indexed<'a>,
    by: Activation,
}

impl<'a> Join for ToEvent<'a> {
    ghost ready = { λ j. SoundApp j.with.index.now.0 };

    ghost gives = { λ j row. any_handed j.with.index.now.0 j.with.readers.now j.with.index.now.1 j.by row };

    fn give<S: Sink>(&self, row: Row, out: &mut S) -> Result<(), S::Refusal> {
        match row {
            Row::Handed(site) => to_event(&self.with, site, self.by, out),
            _ => Ok(()),
        }
    }
}

/// What follows where the event is reached.
pub fn reach_event<F: Facts, S: Sink>(
    with: &Indexed<'_>,
    facts: &F,
    by: Activation,
    out: &mut S,
) -> Result<(), S::Refusal>
    requires { SoundApp with.now.index.now.0 }
    ensures { OnOk result (out.new ≡ fold S.then out.old (entry_gives with.now.index.now.0 with.now.readers.now
        with.now.index.now.1 (F.hits facts.now) by)) }
{
    if takes_nothing(with.index.app(), by.method) {
        return Ok(());
    }
    for_each_hit(facts, &Key::AnyHanded, &ToEvent { with: *with, by }, out)
}

/// Objects of a site come back to events.
#[derive(Drop)]
struct FromObjects<'a, 'b> {
    taker: &'a Taker<'b>,
    readers: &'a RegisterReaders<'a>,
    site: Site,
}

impl<'a, 'b> Join for FromObjects<'a, 'b> {
    ghost ready = { λ j. SoundApp j.taker.now.0 };

    ghost gives = { λ j row. entry_takes j.taker.now.0 j.readers.now j.taker.now.1 j.site j.taker.now.2 row };

    fn give<S: Sink>(&self, row: Row, out: &mut S) -> Result<(), S::Refusal> {
        match row {
            Row::Reached(node) => {
                let back = Back {
                    taker: self.taker,
                    readers: self.readers,
                    site: self.site,
                    by: node.by,
                };
                give_back(&back, out)
            }
            _ => Ok(()),
        }
    }
}

/// What comes back where objects of the site are of the class.
fn hand_class_back<F: Facts, S: Sink>(
    with: &Indexed<'_>,
    facts: &F,
    site: Site,
    class: &Name,
    out: &mut S,
) -> Result<(), S::Refusal>
    requires { SoundApp with.now.index.now.0 }
    ensures { OnOk result (out.new ≡ fold S.then out.old (handed_back_as with.now.index.now.0 with.now.readers.now
        with.now.index.now.1 (F.hits facts.now) site (Some class.now))) }
{
    let taker = &with.index.taker(class);
    let readers = with.readers;
    let objects = FromObjects {
        taker,
        readers,
        site,
    };
    for_each_hit(facts, &Key::EventEntries, &objects, out)
}

/// What comes back to events where objects of the site are handed.
pub fn hand_back<F: Facts, S: Sink>(
    with: &Indexed<'_>,
    facts: &F,
    site: Site,
    out: &mut S,
) -> Result<(), S::Refusal>
    requires { SoundApp with.now.index.now.0 }
    ensures { OnOk result (out.new ≡ fold S.then out.old (handed_back with.now.index.now.0 with.now.readers.now
        with.now.index.now.1 (F.hits facts.now) site)) }
{
    let index = with.index;
    match site_class(index.app(), index.lists(), site) {
        None => Ok(()),
        Some(class) => hand_class_back(with, facts, site, class, out),
    }
}
