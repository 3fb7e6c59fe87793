ghost use Rattle.std.specs.Prelude.{◌≡◌};
ghost use Rattle.flow_analyses.specs.Analyses.{FollowsBy, InAppBy};
ghost use Rattle.flow_rules.specs.Rules.{Starts};
ghost use Rattle.analysis_rules.specs.Ruled.{IsReady, analysis_of, app_of, given_by, leads_by, lists_of, starts_of};
ghost use Rattle.analysis_rules.specs.RuledExact.{exact_by, just_starts_by, led_by, no_rule_without_premises};

use app_rules::AppRules;
use cell_app_rules::CellAppRules;
use fact_rows::Row;
use rule_ground::{Facts, Rules, Sink};
use rule_sets::RuleSet;

/// The rules of an analysis.
#[derive(Drop)]
pub enum AnalysisRules<'a> {
    Paths(AppRules<'a>),
    Cells(CellAppRules<'a>),
}

impl<'a> Rules for AnalysisRules<'a> {
    ghost ready = { λ rules. IsReady rules };

    ghost rule = { λ rules. FollowsBy (analysis_of rules) (app_of rules) (lists_of rules) };

    ghost gives = { λ rules. given_by rules };

    ghost leads = { λ rules. leads_by rules };

    fn conclude<F: Facts, S: Sink>(
        &self,
        facts: &F,
        row: Row,
        out: &mut S,
    ) -> Result<(), S::Refusal> {
        match self {
            AnalysisRules::Paths(rules) => rules.conclude(facts, row, out),
            AnalysisRules::Cells(rules) => rules.conclude(facts, row, out),
        }
    }

    fn lead<F: Facts, S: Sink>(&self, facts: &F, row: Row, out: &mut S) -> Result<(), S::Refusal> {
        match self {
            AnalysisRules::Paths(rules) => rules.lead(facts, row, out),
            AnalysisRules::Cells(rules) => rules.lead(facts, row, out),
        }
    }

    ghost exact = { λ rules rows hits ready law row there. exact_by rules rows hits ready law row there };

    ghost led = { λ rules rows hits ready law. led_by rules rows hits ready law };
}

impl<'a> RuleSet for AnalysisRules<'a> {
    ghost is_start = { λ rules. Starts (app_of rules) };

    ghost starts = { λ rules. starts_of rules };

    ghost in_app = { λ rules. InAppBy (analysis_of rules) (app_of rules) (lists_of rules) };

    fn start_count(&self) -> usize {
        match self {
            AnalysisRules::Paths(rules) => rules.start_count(),
            AnalysisRules::Cells(rules) => rules.start_count(),
        }
    }

    fn start(&self, place: usize) -> Option<Row> {
        match self {
            AnalysisRules::Paths(rules) => rules.start(place),
            AnalysisRules::Cells(rules) => rules.start(place),
        }
    }

    fn has_in_app(&self, row: &Row) -> bool {
        match self {
            AnalysisRules::Paths(rules) => rules.has_in_app(row),
            AnalysisRules::Cells(rules) => rules.has_in_app(row),
        }
    }

    ghost just_starts = { λ rules ready row. just_starts_by rules ready row };

    ghost has_premises = { λ rules rule row follows. no_rule_without_premises rules rule row follows };
}
