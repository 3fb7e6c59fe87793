use cert_rows::Set;
use fact_rows::Row;
use vet_base::Seq;

/// What a certificate says: by which set of rules its table is made, the digest of the files, and the rows of the
/// table, which ascend.
#[derive(Drop)]
pub struct Cert {
    pub set: Set,
    pub digest: [u8; 32],
    pub rows: Seq<Row>,
}
