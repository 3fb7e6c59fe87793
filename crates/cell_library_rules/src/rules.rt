//! The rules of library calls of the second set, from whatever row.
ghost use Rattle.std.specs.Prelude.{◌≡◌, ◌==◌, [], OnOk, fold, if◌then◌else◌};
ghost use Rattle.app_machine.specs.Sound.{SoundApp};
ghost use Rattle.app_machine.specs.SoundLists.{SoundLists};
ghost use Rattle.rule_ground.specs.Hits.{Among};
ghost use Rattle.cell_rules.specs.LibraryRules.{LibraryRule};
ghost use Rattle.cell_library_rules.specs.CellLibraryGiven.{cell_library_given, cell_library_leads, said_gives};
ghost use Rattle.cell_library_rules.specs.exact.CellLibraryExact.{CellLibraryReady, cell_library_exact};
ghost use Rattle.cell_library_rules.specs.exact.CellLibraryExact.{cell_library_led};

use crate::pins::{no_pins, value_pin};
use crate::uses::{Ground, Holder, Use, User, of_said, of_use};
use app_machine::{App, Lists};
use fact_rows::{Row, Site};
use register_readers::RegisterReaders;
use rule_ground::{Facts, Key, Rules, Sink, for_each_hit};
use vet_base::KeyId;

/// The rules of library calls of the second set, but those that are kept from the first.
#[derive(Drop)]
pub struct CellLibraryRules<'a> {
    pub app: &'a App,
    pub readers: &'a RegisterReaders<'a>,
    pub lists: &'a Lists,
}

impl<'a> CellLibraryRules<'a> {
    fn ground(&self) -> Ground<'a>
        ensures { result ≡ record { app = self.now.app; readers = self.now.readers; lists = self.now.lists } }
    {
        Ground {
            app: self.app,
            readers: self.readers,
            lists: self.lists,
        }
    }

    /// What follows from what an object holds under a key, where it is an element.
    fn of_cell<F: Facts, S: Sink>(
        &self,
        facts: &F,
        site: Site,
        key: KeyId,
        cell: Row,
        out: &mut S,
    ) -> Result<(), S::Refusal>
        requires sound { SoundApp self.now.app.now }
        requires lists { SoundLists self.now.lists.now }
        ensures { OnOk result (out.new ≡ fold S.then out.old (if key.0 == 0 then said_gives self.now.app.now
            self.now.readers.now self.now.lists.now (F.hits facts.now) site cell else [])) }
    {
        if key.0 == 0 {
            of_said(&self.ground(), facts, site, cell, out)
        } else {
            Ok(())
        }
    }
}

impl<'a> Rules for CellLibraryRules<'a> {
    ghost ready = { λ rules. CellLibraryReady rules.app.now rules.readers.now rules.lists.now };

    ghost rule = { λ rules. LibraryRule rules.app.now rules.lists.now };

    ghost gives = { λ rules. cell_library_given rules.app.now rules.readers.now rules.lists.now };

    ghost leads = { λ rules. cell_library_leads rules.app.now rules.readers.now rules.lists.now };

    fn conclude<F: Facts, S: Sink>(
        &self,
        facts: &F,
        row: Row,
        out: &mut S,
    ) -> Result<(), S::Refusal> {
        let ground = self.ground();
        match row {
            Row::Uses(node, uses) => {
                let pins = no_pins();
                of_use(&ground, facts, Use { node, uses, pins }, out)
            }
            Row::Points(node, _, _) => {
                let with = Holder {
                    ground,
                    facts,
                    object: row,
                };
                for_each_hit(facts, &Key::UsesAt(node), &with, out)
            }
            Row::Label(node, _, _) => {
                let with = User {
                    ground,
                    facts,
                    pins: value_pin(row),
                };
                for_each_hit(facts, &Key::UsesAt(node), &with, out)
            }
            Row::Cell(site, key, _) => self.of_cell(facts, site, key, row, out),
            Row::CellLabel(site, key, _) => self.of_cell(facts, site, key, row, out),
            Row::Holds(site, _) => of_said(&ground, facts, site, row, out),
            _ => Ok(()),
        }
    }

    /// Each rule has a use among its premises.
    fn lead<F: Facts, S: Sink>(&self, facts: &F, row: Row, out: &mut S) -> Result<(), S::Refusal> {
        match row {
            Row::Uses(_, _) => self.conclude(facts, row, out),
            _ => Ok(()),
        }
    }

    ghost exact = { λ rules rows hits ready law row there. cell_library_exact rules.app.now rules.readers.now
        rules.lists.now ready (Among rows) hits law row there };

    ghost led = { λ rules rows hits ready law. cell_library_led rules.app.now rules.readers.now rules.lists.now ready
        (Among rows) hits law };
}
