/// Why bytes are no change.
#[derive(Clone, Copy, Debug, PartialEq, Eq)]
pub enum NoPayload {
    /// They end within a field.
    Cut,
    /// A byte that no kind, outcome or ruling has.
    Bad,
    /// Bytes stand behind the last field.
    Rest,
}
