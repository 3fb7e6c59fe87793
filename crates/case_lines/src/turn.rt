use case_rules::{Command, Content, OutcomeWord};
use desk_serving::{Desk, Judge, Judged};
use std::alloc::Global;
use store_office::Party;
use vet_base::{Memory, Shared};

/// A judge that finds what it was told, of every app.
#[derive(Drop)]
pub struct ToldJudge {
    pub edition: [u8; 32],
    pub outcome: OutcomeWord,
    pub report: Shared<u8>,
}

impl Judge for ToldJudge {
    ghost ready = { λ judge. Unit {0} };

    ghost finds = { λ judge content judgement. Unit {0} };

    ghost edition = { λ judge. judge.edition };

    fn edition(&self) -> &[u8; 32] {
        &self.edition
    }

    fn judge(&self, _alloc: Global, _content: &Content) -> Result<Judged, Memory> {
        Ok(Judged {
            outcome: self.outcome,
            report: self.report.copy()?,
        })
    }
}

/// A command with all that it comes with.
#[derive(Drop)]
pub struct Turn {
    pub party: Party,
    pub day: u32,
    /// The desk with the lists of this turn and what judging gives, where a case is judged.
    pub desk: Desk<ToldJudge>,
    pub command: Command,
}
