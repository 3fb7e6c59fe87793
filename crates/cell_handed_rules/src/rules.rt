ghost use Rattle.std.specs.Prelude.{◌≡◌, OnOk, fold};
ghost use Rattle.app_machine.specs.Sound.{SoundApp};
ghost use Rattle.app_machine.specs.SoundLists.{SoundLists};
ghost use Rattle.cell_rules.specs.HandedRules.{HandedRule};
ghost use Rattle.rule_ground.specs.Hits.{Among};
ghost use Rattle.cell_handed_rules.specs.CellHandedGiven.{cell_handed_given, cell_handed_leads};
ghost use Rattle.cell_handed_rules.specs.exact.CellHandedExact.{CellHandedReady, rules_exact, rules_led};

use crate::offer::Offer;
use crate::takers::{Takers, of_offer};
use crate::use_row::of_use;
use event_index::EventIndex;
use fact_rows::Row;
use register_readers::RegisterReaders;
use rule_ground::{Facts, Rules, Sink};

/// The rule of handed results of the second set, by the index of the app's events and the numbers of the method
/// rows whose results are handed.
#[derive(Drop)]
pub struct CellHandedRules<'a> {
    pub index: &'a EventIndex<'a>,
    pub readers: &'a RegisterReaders<'a>,
    pub rows: &'a [u32],
}

impl<'a> CellHandedRules<'a> {
    /// What follows where the component is in the state, which is not 0.
    fn live<F: Facts, S: Sink>(
        &self,
        facts: &F,
        component: u32,
        state: u8,
        out: &mut S,
    ) -> Result<(), S::Refusal>
        requires sound { SoundApp self.now.index.now.0 }
        requires lists { SoundLists self.now.index.now.1 }
        ensures { OnOk result (out.new ≡ fold S.then out.old (cell_handed_given self.now.index.now.0
            self.now.readers.now self.now.index.now.1 self.now.rows.now (F.hits facts.now) (Row.Live component
            state))) }
    {
        if state == 0 {
            return Ok(());
        }
        let offer = Offer::Live(component, state);
        of_offer(&self.takers(), facts, offer, out)
    }

    fn takers(&self) -> Takers<'a>
        ensures { result ≡ record { index = self.now.index; readers = self.now.readers; rows = self.now.rows } }
    {
        Takers {
            index: self.index,
            readers: self.readers,
            rows: self.rows,
        }
    }
}

impl<'a> Rules for CellHandedRules<'a> {
    ghost ready = { λ rules. CellHandedReady rules.index.now.0 rules.readers.now rules.index.now.1 rules.rows.now };

    ghost rule = { λ rules. HandedRule rules.index.now.0 rules.index.now.1 };

    ghost gives = { λ rules. cell_handed_given rules.index.now.0 rules.readers.now rules.index.now.1 rules.rows.now };

    ghost leads = { λ rules. cell_handed_leads rules.index.now.0 rules.readers.now rules.index.now.1 };

    fn conclude<F: Facts, S: Sink>(
        &self,
        facts: &F,
        row: Row,
        out: &mut S,
    ) -> Result<(), S::Refusal> {
        match row {
            Row::Uses(node, uses) => of_use(self.index, self.readers, facts, node, uses, out),
            Row::Handed(site) => {
                let offer = Offer::Handed(site);
                of_offer(&self.takers(), facts, offer, out)
            }
            Row::Live(component, state) => self.live(facts, component, state, out),
            _ => Ok(()),
        }
    }

    /// The rule is led by the use.
    fn lead<F: Facts, S: Sink>(&self, facts: &F, row: Row, out: &mut S) -> Result<(), S::Refusal> {
        match row {
            Row::Uses(node, uses) => of_use(self.index, self.readers, facts, node, uses, out),
            _ => Ok(()),
        }
    }

    ghost exact = { λ rules rows hits ready law row there. rules_exact rules.index.now.0 rules.readers.now
        rules.index.now.1 rules.rows.now ready (Among rows) hits law row there };

    ghost led = { λ rules rows hits ready law. rules_led rules.index.now.0 rules.readers.now rules.index.now.1
        rules.rows.now ready (Among rows) hits law };
}
