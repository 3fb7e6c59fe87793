ghost use Rattle.std.specs.Prelude.{◌≡◌, OnOk, filter, fold};
ghost use Rattle.app_index.specs.Handed.{handed_rows};
ghost use Rattle.app_machine.specs.Sound.{SoundApp};
ghost use Rattle.app_machine.specs.SoundLists.{SoundLists};
ghost use Rattle.cell_rules.specs.InApp.{CellInApp};
ghost use Rattle.cell_rules.specs.Rules.{Follows};
ghost use Rattle.flow_rules.specs.Rules.{Starts};
ghost use Rattle.kept_rules.specs.Kept.{is_kept};
ghost use Rattle.register_readers.specs.Readings.{AreReaders};
ghost use Rattle.rule_ground.specs.Hits.{Among};
ghost use Rattle.cell_app_rules.specs.CellAllGiven.{cell_all_given, cell_all_leads};
ghost use Rattle.cell_app_rules.specs.CellReady.{CellRulesReady, just_starts_of};
ghost use Rattle.cell_app_rules.specs.FirstGiven.{first_given, first_leads};
ghost use Rattle.cell_rules.proofs.Premised.{every_cell_rule_has_premises};
ghost use Rattle.cell_app_rules.specs.exact.CellAllExact.{cell_all_exact, cells_lead_all};

use crate::first_rules::FirstRules;
use app_index::{LibraryIndex, StaticReaders};
use app_model::events_are_exact;
use app_rows::{StartRows, is_in_app_by_cells, starts_are_exact};
use cell_call_rules::CellCallRules;
use cell_event_rules::CellEventRules;
use cell_handed_rules::CellHandedRules;
use cell_library_rules::CellLibraryRules;
use cell_step_rules::CellStepRules;
use event_index::EventIndex;
use fact_rows::Row;
use kept_rules::KeptRules;
use register_readers::RegisterReaders;
use rule_ground::{Facts, Rules, Sink};
use rule_sets::RuleSet;

/// The second set's rules of an app by its lists, which are asked by their indexes, as are the events and where the
/// registers are read, and the rows with which they start.
#[derive(Drop)]
pub struct CellAppRules<'a> {
    pub app: &'a StaticReaders<'a>,
    pub lists: &'a LibraryIndex<'a>,
    pub events: &'a EventIndex<'a>,
    pub readers: &'a RegisterReaders<'a>,
    pub starts: StartRows,
}

impl<'a> CellAppRules<'a> {
    pub fn new(
        app: &'a StaticReaders<'a>,
        lists: &'a LibraryIndex<'a>,
        events: &'a EventIndex<'a>,
        readers: &'a RegisterReaders<'a>,
    ) -> CellAppRules<'a>
        requires app { SoundApp app.now }
        requires lists { SoundLists lists.now }
        requires same_app { events.now.0 ≡ app.now }
        requires same_lists { events.now.1 ≡ lists.now }
        requires read_app { readers.now.app ≡ app.now }
        requires readers { AreReaders readers.now }
        ensures app { result.app.now ≡ app.now }
        ensures lists { result.lists.now ≡ lists.now }
        ensures ready { CellRulesReady app.now result.readers.now lists.now result.events.now result.starts }
    {
        events_are_exact();
        starts_are_exact();
        CellAppRules {
            app,
            lists,
            events,
            readers,
            starts: StartRows::new(app.app()),
        }
    }

    fn handed(&self) -> CellHandedRules<'_>
        ensures index { result.index.now ≡ self.now.events.now }
        ensures readers { result.readers.now ≡ self.now.readers.now }
        ensures rows { result.rows.now ≡ handed_rows self.now.lists.now }
    {
        CellHandedRules {
            index: self.events,
            readers: self.readers,
            rows: self.lists.handed_rows(),
        }
    }

    /// What is kept of what the first set concludes.
    #[tactic(auto, using(crate::proofs::Indexed::first_ready))]
    fn conclude_kept<F: Facts, S: Sink>(
        &self,
        facts: &F,
        row: Row,
        out: &mut S,
    ) -> Result<(), S::Refusal>
        requires { CellRulesReady self.now.app.now self.now.readers.now self.now.lists.now self.now.events.now
            self.now.starts }
        ensures { OnOk result (out.new ≡ fold S.then out.old (filter is_kept (first_given self.now.app.now
            self.now.lists.now (F.hits facts.now) row))) }
    {
        let first = FirstRules {
            app: self.app,
            lists: self.lists,
            events: self.events,
        };
        KeptRules { rules: &first }.conclude(facts, row, out)
    }

    /// And of what it leads.
    #[tactic(auto, using(crate::proofs::Indexed::first_ready))]
    fn lead_kept<F: Facts, S: Sink>(
        &self,
        facts: &F,
        row: Row,
        out: &mut S,
    ) -> Result<(), S::Refusal>
        requires { CellRulesReady self.now.app.now self.now.readers.now self.now.lists.now self.now.events.now
            self.now.starts }
        ensures { OnOk result (out.new ≡ fold S.then out.old (filter is_kept (first_leads self.now.app.now
            self.now.lists.now (F.hits facts.now) row))) }
    {
        let first = FirstRules {
            app: self.app,
            lists: self.lists,
            events: self.events,
        };
        KeptRules { rules: &first }.lead(facts, row, out)
    }
}

impl<'a> Rules for CellAppRules<'a> {
    ghost ready = { λ rules. CellRulesReady rules.app.now rules.readers.now rules.lists.now rules.events.now
        rules.starts };

    ghost rule = { λ rules. Follows rules.app.now rules.lists.now };

    ghost gives = { λ rules. cell_all_given rules.app.now rules.readers.now rules.lists.now };

    ghost leads = { λ rules. cell_all_leads rules.app.now rules.readers.now rules.lists.now };

    #[tactic(auto, using(crate::proofs::Indexed::cell_events_ready, crate::proofs::Indexed::cell_library_ready, crate::proofs::Indexed::same_given, crate::proofs::Indexed::handed_ready, crate::proofs::Indexed::same_handed))]
    fn conclude<F: Facts, S: Sink>(
        &self,
        facts: &F,
        row: Row,
        out: &mut S,
    ) -> Result<(), S::Refusal> {
        let app = self.app.app();
        let lists = self.lists.lists();
        let readers = self.readers;
        self.conclude_kept(facts, row, out)?;
        CellStepRules {
            app: self.app,
            readers,
            lists: self.lists,
        }
        .conclude(facts, row, out)?;
        CellCallRules {
            app,
            readers,
            lists: self.lists,
        }
        .conclude(facts, row, out)?;
        CellLibraryRules {
            app,
            readers,
            lists,
        }
        .conclude(facts, row, out)?;
        CellEventRules {
            index: self.events,
            readers,
        }
        .conclude(facts, row, out)?;
        self.handed().conclude(facts, row, out)
    }

    #[tactic(auto, using(crate::proofs::Indexed::cell_events_ready, crate::proofs::Indexed::cell_library_ready, crate::proofs::Indexed::same_leads, crate::proofs::Indexed::handed_ready, crate::proofs::Indexed::same_handed_leads))]
    fn lead<F: Facts, S: Sink>(&self, facts: &F, row: Row, out: &mut S) -> Result<(), S::Refusal> {
        let app = self.app.app();
        let lists = self.lists.lists();
        let readers = self.readers;
        self.lead_kept(facts, row, out)?;
        CellStepRules {
            app: self.app,
            readers,
            lists: self.lists,
        }
        .lead(facts, row, out)?;
        CellCallRules {
            app,
            readers,
            lists: self.lists,
        }
        .lead(facts, row, out)?;
        CellLibraryRules {
            app,
            readers,
            lists,
        }
        .lead(facts, row, out)?;
        CellEventRules {
            index: self.events,
            readers,
        }
        .lead(facts, row, out)?;
        self.handed().lead(facts, row, out)
    }

    ghost exact = { λ rules rows hits ready law row there. cell_all_exact rules.app.now rules.readers.now rules.lists.now
        ready.events ready.readers rows hits law row there };

    ghost led = { λ rules rows hits ready law. cells_lead_all rules.app.now rules.readers.now rules.lists.now
        ready.events ready.readers rows hits law };
}

impl<'a> RuleSet for CellAppRules<'a> {
    ghost is_start = { λ rules. Starts rules.app.now };

    ghost starts = { λ rules. rules.starts };

    ghost in_app = { λ rules. CellInApp rules.app.now rules.lists.now };

    fn start_count(&self) -> usize {
        self.starts.len()
    }

    fn start(&self, place: usize) -> Option<Row> {
        self.starts.row(place)
    }

    #[tactic(auto, using(crate::proofs::Indexed::sound_index, crate::proofs::Indexed::same_in_app))]
    fn has_in_app(&self, row: &Row) -> bool {
        is_in_app_by_cells(self.events, row)
    }

    ghost just_starts = { λ rules ready row. just_starts_of ready row };

    ghost has_premises = { λ rules rule row follows. every_cell_rule_has_premises rules.app.now rules.lists.now rule row
        follows };
}
