ghost use Rattle.std.specs.Prelude.{◌≡◌, ℕ, List, IfOk, IfErr, OnErr, nat_eq};
ghost use Rattle.std.specs.List.{All, starts_with};
ghost use Rattle.vet_base.specs.Script.{Gives};
ghost use Rattle.fact_rows.specs.declared.row.Row.{Row as RowValue};
ghost use Rattle.cert_rows.specs.declared.sets.Set.{Set as SetValue};
ghost use Rattle.cert_rows.specs.Fitting.{IsKnown};
ghost use Rattle.certificate.specs.Cert.{IsCert};
ghost use Rattle.certificate.specs.Laws.{IsStopOf};
ghost use Rattle.certificate.specs.Reading.{fault_at, old_magic, set_told, is_above, magic_from};
ghost use Rattle.certificate.specs.Reading.{digest_from, count_from, next_row, rows_from, cert_from};

use crate::magic_bytes::magic_of;
use crate::{Cert, CertFault};
use cert_rows::{RowFault, Set, row_from, rows_are_found, rows_are_read_again, u4_from};
use fact_rows::Row;
use std::alloc::Global;
use vet_base::{Seq, Stop};

type ReadError = Stop<CertFault>;

fn at_fault(at: usize, fault: RowFault) -> CertFault
    ensures { result ≡ fault_at at fault }
{
    match fault {
        RowFault::Cut => CertFault::Cut(at),
        RowFault::Bad => CertFault::Bad(at),
    }
}

/// The set that the first eight bytes tell, where they are those of a certificate.
#[tactic(auto, unfolding(crate::specs::Reading::set_told))]
fn set_told(bytes: &[u8]) -> Option<Set>
    ensures { result ≡ set_told bytes.now }
{
    if bytes.starts_with(magic_of(Set::Paths)) {
        return Some(Set::Paths);
    }
    if bytes.starts_with(magic_of(Set::Cells)) {
        return Some(Set::Cells);
    }
    None
}

#[tactic(auto, unfolding(crate::specs::Reading::old_magic))]
fn starts_with_old_magic(bytes: &[u8]) -> bool
    ensures { result ≡ starts_with nat_eq bytes.now old_magic }
{
    bytes.starts_with(b"VETCERT1".as_slice())
}

/// The set that the first eight bytes tell, and the bytes behind them.
#[tactic(auto, unfolding(crate::specs::Reading::magic_from), using(vet_base::proofs::Scripts::run_bind))]
fn magic_from(bytes: &[u8]) -> Result<(Set, &[u8]), ReadError>
    ensures { Gives (λ x. (x.0, x.1.now)) result (magic_from bytes.now) }
{
    if starts_with_old_magic(bytes) {
        return Err(Stop::Fault(CertFault::Version));
    }
    if bytes.len() < 8 {
        return Err(Stop::Fault(CertFault::Magic));
    }
    let Some(set) = set_told(bytes) else {
        return Err(Stop::Fault(CertFault::Magic));
    };
    Ok((set, &bytes[8..]))
}

#[tactic(auto, unfolding(crate::specs::Reading::digest_from), using(vet_base::proofs::Scripts::run_bind))]
fn digest_from(bytes: &[u8]) -> Result<([u8; 32], &[u8]), ReadError>
    ensures { Gives (λ x. (x.0, x.1.now)) result (digest_from bytes.now) }
{
    if bytes.len() < 32 {
        return Err(Stop::Fault(CertFault::Cut(8)));
    }
    let mut digest = [0; 32];
    digest.copy_from_slice(&bytes[..32]);
    Ok((digest, &bytes[32..]))
}

#[tactic(auto, unfolding(crate::specs::Reading::count_from), using(crate::proofs::Placing::run_placed))]
fn count_from(bytes: &[u8]) -> Result<(u32, &[u8]), ReadError>
    ensures { Gives (λ x. (x.0, x.1.now)) result (count_from bytes.now) }
{
    match u4_from(bytes) {
        Ok(x) => Ok(x),
        Err(fault) => Err(Stop::Fault(at_fault(40, fault))),
    }
}

fn is_above(last: Option<Row>, row: &Row) -> bool
    ensures { result ≡ is_above last row.now }
{
    match last {
        None => true,
        Some(last) => last.cmp(row).is_lt(),
    }
}

/// The row that the bytes begin with, which are the last of so many, where it is above the last one.
#[tactic(auto, unfolding(crate::specs::Reading::next_row), using(vet_base::proofs::Scripts::run_bind, crate::proofs::Placing::run_placed))]
fn next_row(
    set: Set,
    size: usize,
    last: Option<Row>,
    bytes: &[u8],
) -> Result<(Row, &[u8]), ReadError>
    ensures { Gives (λ x. (x.0, (Some x.0, x.1.now))) result (next_row set size (last, bytes.now)) }
{
    let at = size.saturating_sub(bytes.len());
    match row_from(set, bytes) {
        Err(fault) => Err(Stop::Fault(at_fault(at, fault))),
        Ok((row, rest)) => {
            if !is_above(last, &row) {
                return Err(Stop::Fault(CertFault::Order(at)));
            }
            Ok((row, rest))
        }
    }
}

/// So many rows, the last of them, and the bytes behind them. No memory is taken before there is a
/// row to put there.
#[tactic(auto, unfolding(crate::specs::Reading::rows_from), using(vet_base::proofs::Repeats::repeat_begins, vet_base::proofs::Repeats::repeat_goes_on, vet_base::proofs::Repeats::repeat_fails, vet_base::proofs::Repeats::repeat_is_done))]
fn rows_from(
    alloc: Global,
    set: Set,
    size: usize,
    count: u32,
    bytes: &[u8],
) -> Result<(Vec<Row>, Option<Row>, &[u8]), ReadError>
    ensures { Gives (λ x. (x.0.items, (x.1, x.2.now))) result (rows_from set size count bytes.now) }
{
    let mut rows = Vec::new(alloc);
    let mut last = None;
    let mut rest = bytes;
    for _ in 0..count {
        let (row, next) = next_row(set, size, last, rest)?;
        rows.push(row)?;
        last = Some(row);
        rest = next;
    }
    Ok((rows, last, rest))
}

#[tactic(auto, unfolding(crate::specs::Reading::cert_from), using(vet_base::proofs::Scripts::run_bind))]
fn cert_from(alloc: Global, bytes: &[u8]) -> Result<Cert, ReadError>
    ensures { Gives (λ x. x) result (cert_from bytes.now) }
{
    let (set, rest) = magic_from(bytes)?;
    let (digest, rest) = digest_from(rest)?;
    let (count, rest) = count_from(rest)?;
    let (rows, _, rest) = rows_from(alloc, set, bytes.len(), count, rest)?;
    if !rest.is_empty() {
        let at = bytes.len().saturating_sub(rest.len());
        return Err(Stop::Fault(CertFault::Rest(at)));
    }
    Ok(Cert {
        set,
        digest,
        rows: Seq::from_vec(rows),
    })
}

/// The set, the digest and the rows of which the bytes are the certificate, or the first fault of the bytes.
///
/// The number of rows is believed only as far as there are rows: beside them no memory is taken but
/// that of a growing list.
pub fn read_cert(alloc: Global, bytes: &[u8]) -> Result<Cert, Stop<CertFault>>
    ensures found { IfOk result (λ c. IsCert bytes.now c.set c.digest c.rows) }
    ensures fault { IfErr result (λ e. IsStopOf bytes.now e) }

    // A certificate is read, unless memory runs out.
    ensures only { (set : SetValue) (digest : List ℕ) (rows : List RowValue) → IsCert bytes.now set digest rows
        → OnErr result (result ≡ Err Stop.Memory) }

    // What was read can be written.
    ensures known { IfOk result (λ c. All (IsKnown c.set) c.rows) }
{
    rows_are_read_again();
    rows_are_found();
    match cert_from(alloc, bytes) {
        Ok(cert) => Ok(cert),
        Err(Stop::Memory) => Err(Stop::Memory),
        Err(Stop::Fault(fault)) => Err(Stop::Fault(fault)),
    }
}
