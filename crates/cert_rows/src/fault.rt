/// Why no row begins with some bytes.
#[derive(Clone, Copy, Debug, PartialEq, Eq)]
pub enum RowFault {
    /// The bytes end before the row does.
    Cut,
    /// A byte is none that a row can have there.
    Bad,
}
