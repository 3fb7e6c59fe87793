//! The two analyses of an app: by which rules rows follow, which rows name only what is there to be named, what is
//! derivable by either and which tables are good by it. And the theorems of both: every good table covers every run,
//! derivable rows stay in the app, and all of them together are a good table.
#![tactic(auto)]

ghost use Rattle.flow_analyses.specs.Laws.{AllDerivedRowsAreGood, EachAnalysisStays, EachGoodTableCovers};

use cell_proof::{cell_rules_stay_in_app, every_good_cell_table_covers_every_run};
use flow_proof::{every_good_table_covers_every_run, rules_stay_in_app};
use rule_sets::app_rules_are_a_rule_set;

/// How rows follow in an app.
#[derive(Clone, Copy, Debug, PartialEq, Eq)]
pub enum Analysis {
    /// By the first set of rules: labels are carried along access paths, step by step.
    Paths,
    /// By the second: they are in the cells of objects, for the whole run.
    Cells,
}

/// For each sound app, any lists, and each table that is good by either analysis: every arrival of every run has its
/// `Arrive` row in some context, and every place where a run's last state stands has its `Unknown` row with that cause,
/// in some context. Hence, where the declaration names the pair of each `Arrive` row and no `Unknown` row is there, app,
/// lists and declaration are safe.
pub fn each_good_table_covers_every_run()
    ensures { EachGoodTableCovers }
{
    app_rules_are_a_rule_set();
    every_good_table_covers_every_run();
    every_good_cell_table_covers_every_run();
}

/// In a sound app, by sound lists, what is derivable by an analysis names only what app and lists have.
pub fn each_analysis_stays_in_app()
    ensures { EachAnalysisStays }
{
    app_rules_are_a_rule_set();
    rules_stay_in_app();
    cell_rules_stay_in_app();
}

/// There all that is derivable by an analysis is a good table.
pub fn all_derived_rows_are_good()
    ensures { AllDerivedRowsAreGood }
{
    each_analysis_stays_in_app();
}
