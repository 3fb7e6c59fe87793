ghost use Rattle.std.specs.Prelude.{◌≡◌, ◌<◌, ◌++◌, length, IfOk, OnOk};
ghost use Rattle.std.specs.List.{All, flat_map};
ghost use Rattle.vet_base.specs.Ascending.{Ascends};
ghost use Rattle.fact_rows.specs.Order.{row_cmp};
ghost use Rattle.cert_rows.specs.Fitting.{IsKnown, RowIsSmall};
ghost use Rattle.cert_rows.specs.Spelling.{row_bytes};
ghost use Rattle.certificate.specs.Cert.{IsCert, cert_bytes};

use crate::magic_bytes::magic_of;
use cert_rows::{Set, put_row};
use fact_rows::Row;
use std::alloc::Global;
use vet_base::Memory;

fn put_rows(out: &mut Vec<u8>, rows: &[Row]) -> Result<(), Memory>
    ensures bytes { OnOk result (out.new.items ≡ out.old.items ++ flat_map row_bytes rows.now) }
    ensures small { OnOk result (All RowIsSmall rows.now) }
{
    for row in rows {
        put_row(out, row)?;
    }
    Ok(())
}

/// The certificate of the rows, which ascend, with the set of rules by which they are made and the digest of the files
/// that they are about.
#[tactic(auto, unfolding(crate::specs::Cert::cert_bytes), using(crate::proofs::Known::rows_fit))]
pub fn write_cert(
    alloc: Global,
    set: Set,
    digest: &[u8; 32],
    rows: &[Row],
) -> Result<Vec<u8>, Memory>
    requires few { length rows.now < 4294967296 }
    requires known { All (IsKnown set) rows.now }
    requires ascend { Ascends row_cmp rows.now }
    ensures { IfOk result (λ v. IsCert v.items set digest.now rows.now) }
{
    let mut out = Vec::new(alloc);
    out.extend_from_slice(magic_of(set))?;
    out.extend_from_slice(digest)?;
    out.extend_from_slice(&(rows.len() as u32).to_le_bytes())?;
    put_rows(&mut out, rows)?;
    Ok(out)
}
