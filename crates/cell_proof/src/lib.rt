//! The soundness of the second set of rules, in which labels are in the cells of objects: every closed
//! set of their rows covers every run of the machine. And what they give of rows in the app is in the
//! app.
#![tactic(auto)]

ghost use Rattle.cell_proof.specs.Covering.{EveryGoodCellTableCoversEveryRun};
ghost use Rattle.cell_proof.specs.Staying.{CellRulesStayInApp};

/// The soundness theorem of the second analysis.
///
/// For each sound app, any lists and each table that names only what they have, holds the start
/// rows and is closed under the second rules: every arrival of every run has its `Arrive` row in
/// some context, and every place where a run's last state stands has its `Unknown` row with that
/// cause, in some context. Hence, where the declaration names the pair of each `Arrive` row and no
/// `Unknown` row is there, app, lists and declaration are safe.
pub fn every_good_cell_table_covers_every_run()
    ensures { EveryGoodCellTableCoversEveryRun }
{}

/// What the second rules give of rows in the app is in the app.
///
/// For each sound app and sound lists: the start rows name only what app and lists have, what
/// follows from rows that do so does so too, and hence each derivable row does.
pub fn cell_rules_stay_in_app()
    ensures { CellRulesStayInApp }
{}
