/// Why bytes are no certificate: the first test that fails. An offset is that of the first byte of
/// what cannot be read.
#[derive(Clone, Copy, Debug, PartialEq, Eq)]
pub enum CertFault {
    /// The first eight bytes are those of no certificate, or are not there.
    Magic,
    /// The digest, the count or the row does not end within the bytes.
    Cut(usize),
    /// The row is not above the one before.
    Order(usize),
    /// A byte of the row is none that a row can have there.
    Bad(usize),
    /// Bytes follow the last row.
    Rest(usize),
    /// The first eight bytes are those of version 1.
    Version,
}
