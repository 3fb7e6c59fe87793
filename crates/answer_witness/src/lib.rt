//! Small facts that show what is told of an app: its findings and causes, the files of its folder, what
//! its parts do not come to, the rows with which its table starts and which it can have, and how rows
//! are looked for. Each is a theorem over the definitions that the clauses of the code name, so that
//! code which answers otherwise is refused.
#![tactic(auto)]

ghost use Rattle.answer_witness.specs.FlowFacts.{AllFlowsAreTold};
ghost use Rattle.answer_witness.specs.FolderFacts.{FolderIsGathered};
ghost use Rattle.answer_witness.specs.GroundFacts.{RowsAreSought};
ghost use Rattle.answer_witness.specs.JudgingFacts.{PartsAreJudged};
ghost use Rattle.answer_witness.specs.OutcomeFacts.{OutcomesAreTold};
ghost use Rattle.answer_witness.specs.RowFacts.{RowsAreOfTheApp, StartsAreThere};
ghost use Rattle.answer_witness.specs.VerdictFacts.{AppsComeOut};

use app_flow::one_defect;

/// Findings and causes are told each in its place, in order and by its own kind, and only where the
/// declaration does not name the pair; and the first file that is refused is told.
pub fn outcomes_are_told()
    ensures { OutcomesAreTold × FolderIsGathered }
{}

/// A table starts with each component, or with the application alone.
pub fn starts_are_there()
    ensures { StartsAreThere }
{}

/// Rows name RES, three causes, and contexts at whose calls methods are entered.
pub fn rows_are_of_the_app()
    ensures { RowsAreOfTheApp }
{}

/// A search comes to each row, the least conclusion is kept, and a label is stored by a cut path.
pub fn rows_are_sought()
    ensures { RowsAreSought }
{}

/// Parts are judged the manifest first, by all their DEX files, and with the table of the app.
pub fn parts_are_judged()
    ensures { PartsAreJudged }
{}

/// An app comes to what is told of it: flagged, undecided, too large with what a device may do besides; and by rows of
/// a certificate to a defect just where they are no good table.
pub fn apps_come_out()
    ensures { AppsComeOut }
{
    one_defect();
}

/// What follows keeps to the limit of the lists, and rows that are no good table have the defect that they have.
pub fn flows_are_told()
    ensures { AllFlowsAreTold }
{
    one_defect();
}
