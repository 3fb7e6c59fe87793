ghost use Rattle.std.specs.Prelude.{◌≡◌, ℕ, List, IfOk};
ghost use Rattle.case_rules.specs.declared.case.Content.{Content};
ghost use Rattle.case_rules.specs.Desk.{Judgement};
ghost use Rattle.desk_serving.specs.Obeying.{judgement_of};

use case_rules::{Content, OutcomeWord};
use std::alloc::Global;
use store_office::Office;
use vet_base::{Memory, Shared};

/// What an app came to: the first word of the report, and the report.
#[derive(Drop)]
pub struct Judged {
    pub outcome: OutcomeWord,
    pub report: Shared<u8>,
}

/// One who judges apps, always under the same lists.
pub trait Judge {
    /// What it takes to be asked.
    ghost ready: { Self → Type 0 };

    /// What the content may come to.
    ghost finds: { Self → Content → Judgement → Type 0 };

    /// The edition of the lists: the SHA-256 of their bytes.
    ghost edition: { Self → List ℕ };

    fn edition(&self) -> &[u8; 32]
        ensures { result.now ≡ edition self.now };

    /// Judges an app.
    fn judge(&self, alloc: Global, content: &Content) -> Result<Judged, Memory>
        requires { ready self.now }
        ensures { IfOk result (λ judged. finds self.now content.now (judgement_of judged)) };

    /// A case with this content is in the queue: who judges apps may begin. No answer depends on it.
    fn ahead(&self, _content: &Content) {}
}

/// A desk that serves: its office, and who judges for it.
#[derive(Drop)]
pub struct Desk<J> {
    pub office: Office,
    pub judge: J,
}
