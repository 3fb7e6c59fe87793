//! Small facts that show that the definitions of the rows and stories of findings mean what they should. Each is a
//! theorem over the definitions that the clauses of `finding_rows` and `app_stories` name, so that code which answers
//! otherwise is refused.
#![tactic(auto)]

ghost use Rattle.finding_witness.specs.FindingFacts.{FindingsAreTold};

/// Which rows do not tell a finding first, and what are no stories of findings.
pub fn the_findings_are_told()
    ensures { FindingsAreTold }
{}
