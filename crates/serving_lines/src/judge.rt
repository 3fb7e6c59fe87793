ghost use Rattle.std.specs.Prelude.{ℕ, List};
ghost use Rattle.case_rules.specs.declared.case.Content.{Content};
ghost use Rattle.case_rules.specs.Desk.{Judgement};

use case_rules::{Content, OutcomeWord};
use desk_serving::{Judge, Judged};
use std::alloc::Global;
use vet_base::{Memory, Shared};

/// A judge that goes by the first byte of the declaration: `c`
/// is clear, `u` undecided, `r` refused and any other flagged.
#[derive(Drop)]
pub struct FirstByte {
    edition: [u8; 32],
}

impl FirstByte {
    /// A judge under the edition whose first byte is this and whose other bytes are 0.
    pub fn new(number: u8) -> Self {
        let mut edition = [0; 32];
        edition[0] = number;
        FirstByte { edition }
    }
}

/// The outcome that begins with a byte.
fn outcome_of(first: Option<&u8>) -> OutcomeWord {
    match first {
        Some(b'c') => OutcomeWord::Clear,
        Some(b'u') => OutcomeWord::Undecided,
        Some(b'r') => OutcomeWord::Refused,
        _ => OutcomeWord::Flagged,
    }
}

/// The report of an outcome, the same for every app.
fn report_of(outcome: OutcomeWord) -> &'static [u8] {
    match outcome {
        OutcomeWord::Clear => b"clear\n",
        OutcomeWord::Flagged => b"flagged 1\nid -> net at La/Main;->go()V @12\n",
        OutcomeWord::Undecided => b"undecided 1\nnative: La/Main;->go()V @12\n",
        OutcomeWord::Refused => b"refused classes.dex: magic\n",
    }
}

impl Judge for FirstByte {
    ghost ready = { λ judge. Unit {0} };

    ghost finds = { λ judge content judgement. Unit {0} };

    ghost edition = { λ judge. judge.edition };

    fn edition(&self) -> &[u8; 32] {
        &self.edition
    }

    fn judge(&self, alloc: Global, content: &Content) -> Result<Judged, Memory> {
        let outcome = outcome_of(content.declaration.get(0));
        let report = report_of(outcome).to_vec(alloc)?;
        Ok(Judged {
            outcome,
            report: Shared::from_vec(alloc, report)?,
        })
    }
}
