//! Certificates: a table of rows, by which set of rules it is made, and the digest of the files that it is about, as
//! bytes of one spelling.
#![tactic(auto)]

mod cert;
mod digest;
mod fault;
mod law;
mod magic_bytes;
mod read;
mod write;

pub use cert::Cert;
pub use digest::digest_of;
pub use fault::CertFault;
pub use law::certificates_keep_their_laws;
pub use read::read_cert;
pub use write::write_cert;
