//! Rows that say labels of values. They are of the second set.
ghost use Rattle.std.specs.Prelude.{◌≡◌};
ghost use Rattle.fact_rows.specs.declared.kind.Kind.TheVariants as kinds;
ghost use Rattle.cert_rows.specs.Reading.{Reads};
ghost use Rattle.cert_rows.specs.Rows.{row_of};

use crate::contexts::{activation_from, node_from};
use crate::fields::{exit_from, key_from};
use crate::numbers::{byte_from, u4_from};
use crate::sites::site_from;
use crate::{RowFault, Set};
use fact_rows::Row;

#[tactic(auto, unfolding(crate::specs::Rows::row_of), using(vet_base::proofs::Scripts::run_bind))]
pub fn label_from(set: Set, bytes: &[u8]) -> Result<(Row, &[u8]), RowFault>
    ensures { Reads (λ x. (x.0, x.1.now)) result (row_of set kinds.Label bytes.now) }
{
    if !set.is_cells() {
        return Err(RowFault::Bad);
    }
    let (node, rest) = node_from(bytes)?;
    let (register, rest) = u4_from(rest)?;
    let (label, rest) = byte_from(rest)?;
    Ok((Row::Label(node, register, label), rest))
}

#[tactic(auto, unfolding(crate::specs::Rows::row_of), using(vet_base::proofs::Scripts::run_bind))]
pub fn static_label_from(set: Set, bytes: &[u8]) -> Result<(Row, &[u8]), RowFault>
    ensures { Reads (λ x. (x.0, x.1.now)) result (row_of set kinds.StaticLabel bytes.now) }
{
    if !set.is_cells() {
        return Err(RowFault::Bad);
    }
    let (fixed, rest) = u4_from(bytes)?;
    let (label, rest) = byte_from(rest)?;
    Ok((Row::StaticLabel(fixed, label), rest))
}

#[tactic(auto, unfolding(crate::specs::Rows::row_of), using(vet_base::proofs::Scripts::run_bind))]
pub fn cell_label_from(set: Set, bytes: &[u8]) -> Result<(Row, &[u8]), RowFault>
    ensures { Reads (λ x. (x.0, x.1.now)) result (row_of set kinds.CellLabel bytes.now) }
{
    if !set.is_cells() {
        return Err(RowFault::Bad);
    }
    let (holder, rest) = site_from(set, bytes)?;
    let (key, rest) = key_from(rest)?;
    let (label, rest) = byte_from(rest)?;
    Ok((Row::CellLabel(holder, key, label), rest))
}

#[tactic(auto, unfolding(crate::specs::Rows::row_of), using(vet_base::proofs::Scripts::run_bind))]
pub fn holds_from(set: Set, bytes: &[u8]) -> Result<(Row, &[u8]), RowFault>
    ensures { Reads (λ x. (x.0, x.1.now)) result (row_of set kinds.Holds bytes.now) }
{
    if !set.is_cells() {
        return Err(RowFault::Bad);
    }
    let (site, rest) = site_from(set, bytes)?;
    let (label, rest) = byte_from(rest)?;
    Ok((Row::Holds(site, label), rest))
}

#[tactic(auto, unfolding(crate::specs::Rows::row_of), using(vet_base::proofs::Scripts::run_bind))]
pub fn exit_label_from(set: Set, bytes: &[u8]) -> Result<(Row, &[u8]), RowFault>
    ensures { Reads (λ x. (x.0, x.1.now)) result (row_of set kinds.ExitLabel bytes.now) }
{
    if !set.is_cells() {
        return Err(RowFault::Bad);
    }
    let (activation, rest) = activation_from(bytes)?;
    let (how, rest) = exit_from(rest)?;
    let (label, rest) = byte_from(rest)?;
    Ok((Row::ExitLabel(activation, how, label), rest))
}
