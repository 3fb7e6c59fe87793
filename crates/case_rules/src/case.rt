use vet_base::{Name, Shared};

/// The files of a submitted app, as bytes.
#[derive(Debug, Drop)]
pub struct Content {
    pub manifest: Shared<u8>,
    pub layouts: Shared<u8>,
    pub declaration: Shared<u8>,
    /// `classes.dex` first, then `classes2.dex` and so on.
    pub dex: Shared<Shared<u8>>,
}

/// The first word of a report.
#[derive(Clone, Copy, Debug, PartialEq, Eq)]
pub enum OutcomeWord {
    Clear,
    Flagged,
    Undecided,
    Refused,
}

/// What a reviewer had judged: the outcome, its report, and the edition of the lists, which is the
/// SHA-256 of their bytes. Days count from 1 January 1970.
#[derive(Debug, Drop)]
pub struct Decision {
    pub outcome: OutcomeWord,
    pub report: Shared<u8>,
    pub lists: [u8; 32],
    pub reviewer: Name,
    pub day: u32,
}

/// What a developer says against a decision.
#[derive(Debug, Drop)]
pub struct Appeal {
    pub day: u32,
    /// 1 to 4,000 bytes.
    pub text: Shared<u8>,
}

/// What becomes of a decision after an appeal. An overturned case keeps its outcome.
#[derive(Clone, Copy, Debug, PartialEq, Eq)]
pub enum RulingWord {
    Uphold,
    Overturn,
}

/// What another reviewer says to an appeal.
#[derive(Debug, Drop)]
pub struct Ruling {
    pub reviewer: Name,
    pub day: u32,
    pub word: RulingWord,
}

/// A decision under one edition of the lists, with the appeal against it and the ruling on that.
#[derive(Debug, Drop)]
pub struct Entry {
    pub decision: Decision,
    pub appeal: Option<Appeal>,
    pub ruling: Option<Ruling>,
}

/// A submitted app with what was decided on it, oldest first. A case is named by its developer and its reference.
#[derive(Debug, Drop)]
pub struct Case {
    /// The developer.
    pub party: Name,
    /// 1 to 64 bytes of `A-Z a-z 0-9 . _ -`.
    pub reference: Name,
    pub content: Content,
    pub entries: Shared<Entry>,
}

/// How far a case is: that of its last entry, and `Queued` without one.
#[derive(Clone, Copy, Debug, PartialEq, Eq)]
pub enum State {
    Queued,
    Decided,
    Appealed,
    Ruled,
}

/// A case in a list of cases.
#[derive(Debug, Drop)]
pub struct Line {
    pub party: Name,
    pub reference: Name,
    pub state: State,
}
