use crate::{Appeal, Case, Decision, Line, OutcomeWord, Ruling, RulingWord, State};
use vet_base::{Name, Shared};

/// Why a command is refused.
#[derive(Clone, Copy, Debug, PartialEq, Eq)]
pub enum Refusal {
    WrongRole,
    NoCase,
    /// A case of this reference has other bytes.
    OtherContent,
    /// The developer has as many cases without an entry as are allowed.
    TooManyOpen(u32),
    NothingQueued,
    NotDecided,
    /// The case was decided under this edition of the lists.
    SameEdition,
    /// The last decision has an appeal and no ruling.
    AppealOpen,
    /// An outcome against which no appeal is taken.
    NoAppealFor(OutcomeWord),
    AppealedAlready,
    /// The last day on which an appeal was taken.
    TooLate(u64),
    NoAppeal,
    RuledAlready,
    /// The reviewer made the decision.
    SameReviewer,
}

/// What a party is told.
#[derive(Debug, Drop)]
pub enum Reply {
    /// The reference of a new case.
    Added(Name),
    /// The reference of a case with the same bytes, and its state.
    Kept(Name, State),
    /// The developer, the reference and the outcome.
    Decided(Name, Name, OutcomeWord),
    Shown(Case),
    /// The last report.
    Text(Shared<u8>),
    /// The reference.
    Appealed(Name),
    /// The developer, the reference and the word.
    Ruled(Name, Name, RulingWord),
    Lines(Shared<Line>),
    No(Refusal),
}

/// The one change that a command makes.
#[derive(Drop)]
pub enum Change {
    Add(Case),
    /// Adds an entry to the case of this developer and reference.
    Decide(Name, Name, Decision),
    /// Acts on its last entry.
    Appeal(Name, Name, Appeal),
    Rule(Name, Name, Ruling),
}

/// What is to be done for a command.
#[derive(Drop)]
pub enum Plan {
    /// Nothing changes.
    Say(Reply),
    /// The reply holds once the change is kept.
    Do(Change, Reply),
    /// The content of this case is to be judged, and `settle` then gives change and reply.
    Judge(Case),
}
