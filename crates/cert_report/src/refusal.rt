use certificate::CertFault;
use fact_rows::Row;

/// Why a certificate is refused.
#[derive(Clone, Copy)]
pub enum CertRefusal {
    /// The file is no certificate.
    Fault(CertFault),
    /// It is about other files: the digest that it has, and that of the files.
    Digest([u8; 32], [u8; 32]),
    /// The row names what the app and the lists do not have.
    Stranger(Row),
    /// The start row is not there.
    NoStart(Row),
    /// The row follows from rows that are there, and is not there.
    NotClosed(Row),
}
