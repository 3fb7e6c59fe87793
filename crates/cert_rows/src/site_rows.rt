//! Rows that begin with a site.
ghost use Rattle.std.specs.Prelude.{◌≡◌};
ghost use Rattle.fact_rows.specs.declared.kind.Kind.TheVariants as kinds;
ghost use Rattle.cert_rows.specs.Reading.{Reads};
ghost use Rattle.cert_rows.specs.Rows.{row_of};

use crate::fields::{key_from, labelled_from};
use crate::sites::site_from;
use crate::{RowFault, Set};
use fact_rows::Row;

#[tactic(auto, unfolding(crate::specs::Rows::row_of), using(vet_base::proofs::Scripts::run_bind))]
pub fn cell_from(set: Set, bytes: &[u8]) -> Result<(Row, &[u8]), RowFault>
    ensures { Reads (λ x. (x.0, x.1.now)) result (row_of set kinds.Cell bytes.now) }
{
    let (holder, rest) = site_from(set, bytes)?;
    let (key, rest) = key_from(rest)?;
    let (held, rest) = site_from(set, rest)?;
    Ok((Row::Cell(holder, key, held), rest))
}

#[tactic(auto, unfolding(crate::specs::Rows::row_of), using(vet_base::proofs::Scripts::run_bind))]
pub fn back_from(set: Set, bytes: &[u8]) -> Result<(Row, &[u8]), RowFault>
    ensures { Reads (λ x. (x.0, x.1.now)) result (row_of set kinds.Back bytes.now) }
{
    let (held, rest) = site_from(set, bytes)?;
    let (key, rest) = key_from(rest)?;
    let (holder, rest) = site_from(set, rest)?;
    Ok((Row::Back(held, key, holder), rest))
}

#[tactic(auto, unfolding(crate::specs::Rows::row_of), using(vet_base::proofs::Scripts::run_bind))]
pub fn handed_from(set: Set, bytes: &[u8]) -> Result<(Row, &[u8]), RowFault>
    ensures { Reads (λ x. (x.0, x.1.now)) result (row_of set kinds.Handed bytes.now) }
{
    let (site, rest) = site_from(set, bytes)?;
    Ok((Row::Handed(site), rest))
}

#[tactic(auto, unfolding(crate::specs::Rows::row_of), using(vet_base::proofs::Scripts::run_bind))]
pub fn handed_taint_from(set: Set, bytes: &[u8]) -> Result<(Row, &[u8]), RowFault>
    ensures { Reads (λ x. (x.0, x.1.now)) result (row_of set kinds.HandedTaint bytes.now) }
{
    if !set.is_paths() {
        return Err(RowFault::Bad);
    }
    let (site, rest) = site_from(set, bytes)?;
    let ((path, label), rest) = labelled_from(rest)?;
    Ok((Row::HandedTaint(site, path, label), rest))
}
