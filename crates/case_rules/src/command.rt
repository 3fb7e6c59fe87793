use crate::{Case, Content, Line, RulingWord};
use vet_base::{Name, Shared};

/// What a party asks of the desk.
#[derive(Drop)]
pub enum Command {
    /// A reference of one's own, and the app.
    Submit(Name, Content),
    Decide,
    Show(Name),
    Report(Name),
    /// A reference and the text.
    Appeal(Name, Shared<u8>),
    /// A developer and a reference.
    Review(Name, Name),
    /// A developer, a reference and the word.
    Rule(Name, Name, RulingWord),
    List,
}

/// What the list of cases shows for a command. Submit needs `found` and `queued`; Show, Report, Appeal,
/// Review and Rule need `found`; Decide needs `first`; List needs `lines`. The other fields decide nothing.
#[derive(Drop)]
pub struct View {
    /// The case that the command names.
    pub found: Option<Case>,
    /// The first case without an entry.
    pub first: Option<Case>,
    /// How many cases of the party have no entry.
    pub queued: u64,
    /// A developer's own cases by reference or, for a reviewer, the open appeals by developer and reference.
    pub lines: Shared<Line>,
}
