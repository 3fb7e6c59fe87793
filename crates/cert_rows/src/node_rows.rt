//! Rows that begin with a node.
ghost use Rattle.std.specs.Prelude.{◌≡◌};
ghost use Rattle.fact_rows.specs.declared.kind.Kind.TheVariants as kinds;
ghost use Rattle.fact_rows.specs.declared.row.Row.TheVariants as row;
ghost use Rattle.cert_rows.specs.Reading.{Reads, activation_from, node_from};
ghost use Rattle.cert_rows.specs.Rows.{one, two, cause_from, use_from, row_of};

use crate::contexts::{activation_from, node_from};
use crate::fields::{cause_from, labelled_from, use_from};
use crate::numbers::u4_from;
use crate::sites::site_from;
use crate::{RowFault, Set};
use fact_rows::Row;

#[tactic(auto, using(vet_base::proofs::Scripts::run_bind))]
pub fn reached_from(bytes: &[u8]) -> Result<(Row, &[u8]), RowFault>
    ensures { Reads (λ x. (x.0, x.1.now)) result (one node_from row.Reached bytes.now) }
{
    let (node, rest) = node_from(bytes)?;
    Ok((Row::Reached(node), rest))
}

#[tactic(auto, unfolding(crate::specs::Rows::row_of), using(vet_base::proofs::Scripts::run_bind))]
pub fn points_from(set: Set, bytes: &[u8]) -> Result<(Row, &[u8]), RowFault>
    ensures { Reads (λ x. (x.0, x.1.now)) result (row_of set kinds.Points bytes.now) }
{
    let (node, rest) = node_from(bytes)?;
    let (register, rest) = u4_from(rest)?;
    let (site, rest) = site_from(set, rest)?;
    Ok((Row::Points(node, register, site), rest))
}

#[tactic(auto, unfolding(crate::specs::Rows::row_of), using(vet_base::proofs::Scripts::run_bind))]
pub fn taint_from(set: Set, bytes: &[u8]) -> Result<(Row, &[u8]), RowFault>
    ensures { Reads (λ x. (x.0, x.1.now)) result (row_of set kinds.Taint bytes.now) }
{
    if !set.is_paths() {
        return Err(RowFault::Bad);
    }
    let (node, rest) = node_from(bytes)?;
    let (register, rest) = u4_from(rest)?;
    let ((path, label), rest) = labelled_from(rest)?;
    Ok((Row::Taint(node, register, path, label), rest))
}

#[tactic(auto, using(vet_base::proofs::Scripts::run_bind))]
pub fn calls_from(bytes: &[u8]) -> Result<(Row, &[u8]), RowFault>
    ensures { Reads (λ x. (x.0, x.1.now)) result (two node_from activation_from row.Calls bytes.now) }
{
    let (node, rest) = node_from(bytes)?;
    let (body, rest) = activation_from(rest)?;
    Ok((Row::Calls(node, body), rest))
}

#[tactic(auto, unfolding(crate::specs::Rows::row_of), using(vet_base::proofs::Scripts::run_bind))]
pub fn effect_from(set: Set, bytes: &[u8]) -> Result<(Row, &[u8]), RowFault>
    ensures { Reads (λ x. (x.0, x.1.now)) result (row_of set kinds.Effect bytes.now) }
{
    if !set.is_paths() {
        return Err(RowFault::Bad);
    }
    let (node, rest) = node_from(bytes)?;
    let (site, rest) = site_from(set, rest)?;
    let ((path, label), rest) = labelled_from(rest)?;
    Ok((Row::Effect(node, site, path, label), rest))
}

#[tactic(auto, using(vet_base::proofs::Scripts::run_bind))]
pub fn unknown_from(bytes: &[u8]) -> Result<(Row, &[u8]), RowFault>
    ensures { Reads (λ x. (x.0, x.1.now)) result (two node_from cause_from row.Unknown bytes.now) }
{
    let (node, rest) = node_from(bytes)?;
    let (cause, rest) = cause_from(rest)?;
    Ok((Row::Unknown(node, cause), rest))
}

#[tactic(auto, using(vet_base::proofs::Scripts::run_bind))]
pub fn uses_from(bytes: &[u8]) -> Result<(Row, &[u8]), RowFault>
    ensures { Reads (λ x. (x.0, x.1.now)) result (two node_from use_from row.Uses bytes.now) }
{
    let (node, rest) = node_from(bytes)?;
    let (summary, rest) = use_from(rest)?;
    Ok((Row::Uses(node, summary), rest))
}
