//! Small facts about the two analyses: by which of them an app is judged, by whose rules a certificate is checked, and
//! under which lists those of the second are refused. Each is a theorem over the definitions that the clauses of the
//! code name, so that code which answers otherwise is refused.
#![tactic(auto)]

ghost use Rattle.analysis_witness.specs.ByFlow.{AppsAreJudgedByTheirFlow};
ghost use Rattle.analysis_witness.specs.OwnRules.{AreCheckedByOwnRules};

use app_flow::{one_defect, one_flow};
use certificate::certificates_keep_their_laws;
use verdict::lower_laws;

/// What an app comes to has the table of the first analysis where its rows keep to the limit; else that of the second
/// where the lists ask for it and its rows do; and else none.
pub fn apps_are_judged_by_their_flow()
    ensures { AppsAreJudgedByTheirFlow }
{
    one_flow();
}

/// A certificate with the digest of the parts comes to what the rules of its own set make of its rows, and to nothing
/// else; under lists without the word one of the second set is refused with `magic`; and the bytes that are written of
/// a table are a certificate of no other set than that of its analysis.
pub fn certificates_are_checked_by_their_own_rules()
    ensures { AreCheckedByOwnRules }
{
    certificates_keep_their_laws();
    lower_laws();
    one_defect();
}
