//! The families of the first set of which the second keeps rules.
ghost use Rattle.cell_app_rules.specs.exact.FirstExact.{first_exact, first_led};
ghost use Rattle.cell_app_rules.specs.FirstGiven.{FirstReady, FirstRule, first_given, first_leads};
ghost use Rattle.rule_ground.specs.Hits.{Among};

use app_index::{LibraryIndex, StaticReaders};
use call_rules::CallRules;
use event_index::EventIndex;
use event_rules::EventRules;
use fact_rows::Row;
use library_heap_rules::LibraryRules;
use rule_ground::{Facts, Rules, Sink};
use step_rules::StepRules;

/// All but the rules of effects and of handed results, of which it keeps none.
#[derive(Drop)]
pub struct FirstRules<'a> {
    pub app: &'a StaticReaders<'a>,
    pub lists: &'a LibraryIndex<'a>,
    pub events: &'a EventIndex<'a>,
}

impl<'a> Rules for FirstRules<'a> {
    ghost ready = { λ rules. FirstReady rules.app.now rules.lists.now rules.events.now };

    ghost rule = { λ rules. FirstRule rules.app.now rules.lists.now };

    ghost gives = { λ rules. first_given rules.app.now rules.lists.now };

    ghost leads = { λ rules. first_leads rules.app.now rules.lists.now };

    #[tactic(auto, using(crate::proofs::Indexed::first_events_ready, crate::proofs::Indexed::first_given_by))]
    fn conclude<F: Facts, S: Sink>(
        &self,
        facts: &F,
        row: Row,
        out: &mut S,
    ) -> Result<(), S::Refusal> {
        let app = self.app.app();
        let lists = self.lists.lists();
        StepRules {
            app: self.app,
            lists: self.lists,
        }
        .conclude(facts, row, out)?;
        CallRules {
            app,
            lists: self.lists,
        }
        .conclude(facts, row, out)?;
        LibraryRules { app, lists }.conclude(facts, row, out)?;
        EventRules { index: self.events }.conclude(facts, row, out)
    }

    #[tactic(auto, using(crate::proofs::Indexed::first_events_ready, crate::proofs::Indexed::first_leads_by))]
    fn lead<F: Facts, S: Sink>(&self, facts: &F, row: Row, out: &mut S) -> Result<(), S::Refusal> {
        let app = self.app.app();
        let lists = self.lists.lists();
        StepRules {
            app: self.app,
            lists: self.lists,
        }
        .lead(facts, row, out)?;
        CallRules {
            app,
            lists: self.lists,
        }
        .lead(facts, row, out)?;
        LibraryRules { app, lists }.lead(facts, row, out)?;
        EventRules { index: self.events }.lead(facts, row, out)
    }

    ghost exact = { λ rules rows hits ready law row there. first_exact rules.app.now rules.lists.now ready.events rows
        hits law row there };

    ghost led = { λ rules rows hits ready law. first_led rules.app.now rules.lists.now ready.events rows hits law };
}
