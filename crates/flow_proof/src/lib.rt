//! The soundness of the rules: every closed set of rows covers every run of the machine. And what the
//! rules give of rows in the app is in the app.
#![tactic(auto)]

ghost use Rattle.flow_proof.specs.Covering.{EveryGoodTableCoversEveryRun};
ghost use Rattle.flow_proof.specs.Staying.{RulesStayInApp};

use access_path::paths_keep_their_laws;

/// The soundness theorem.
///
/// For each sound app, any lists and each table that names only what they have, holds the start
/// rows and is closed under the rules: every arrival of every run has its `Arrive` row in some
/// context, and every place where a run's last state stands has its `Unknown` row with that cause,
/// in some context. Hence, where the declaration names the pair of each `Arrive` row and no
/// `Unknown` row is there, app, lists and declaration are safe.
pub fn every_good_table_covers_every_run()
    ensures { EveryGoodTableCoversEveryRun }
{
    paths_keep_their_laws();
}

/// What the rules give of rows in the app is in the app.
///
/// For each sound app and sound lists: the start rows name only what app and lists have, what
/// follows from rows that do so does so too, and hence each derivable row does.
pub fn rules_stay_in_app()
    ensures { RulesStayInApp }
{
    paths_keep_their_laws();
}
