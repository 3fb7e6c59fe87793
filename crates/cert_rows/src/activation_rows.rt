//! Rows that begin with an activation.
ghost use Rattle.std.specs.Prelude.{◌≡◌};
ghost use Rattle.fact_rows.specs.declared.kind.Kind.TheVariants as kinds;
ghost use Rattle.fact_rows.specs.declared.row.Row.TheVariants as row;
ghost use Rattle.cert_rows.specs.Reading.{Reads, activation_from, node_from};
ghost use Rattle.cert_rows.specs.Rows.{two, row_of};

use crate::contexts::{activation_from, node_from};
use crate::fields::{exit_from, labelled_from};
use crate::sites::site_from;
use crate::{RowFault, Set};
use fact_rows::Row;

#[tactic(auto, using(vet_base::proofs::Scripts::run_bind))]
pub fn called_by_from(bytes: &[u8]) -> Result<(Row, &[u8]), RowFault>
    ensures { Reads (λ x. (x.0, x.1.now)) result (two activation_from node_from row.CalledBy bytes.now) }
{
    let (body, rest) = activation_from(bytes)?;
    let (node, rest) = node_from(rest)?;
    Ok((Row::CalledBy(body, node), rest))
}

#[tactic(auto, unfolding(crate::specs::Rows::row_of), using(vet_base::proofs::Scripts::run_bind))]
pub fn method_effect_from(set: Set, bytes: &[u8]) -> Result<(Row, &[u8]), RowFault>
    ensures { Reads (λ x. (x.0, x.1.now)) result (row_of set kinds.MethodEffect bytes.now) }
{
    if !set.is_paths() {
        return Err(RowFault::Bad);
    }
    let (activation, rest) = activation_from(bytes)?;
    let (site, rest) = site_from(set, rest)?;
    let ((path, label), rest) = labelled_from(rest)?;
    Ok((Row::MethodEffect(activation, site, path, label), rest))
}

#[tactic(auto, unfolding(crate::specs::Rows::row_of), using(vet_base::proofs::Scripts::run_bind))]
pub fn exit_points_from(set: Set, bytes: &[u8]) -> Result<(Row, &[u8]), RowFault>
    ensures { Reads (λ x. (x.0, x.1.now)) result (row_of set kinds.ExitPoints bytes.now) }
{
    let (activation, rest) = activation_from(bytes)?;
    let (how, rest) = exit_from(rest)?;
    let (site, rest) = site_from(set, rest)?;
    Ok((Row::ExitPoints(activation, how, site), rest))
}

#[tactic(auto, unfolding(crate::specs::Rows::row_of), using(vet_base::proofs::Scripts::run_bind))]
pub fn exit_taint_from(set: Set, bytes: &[u8]) -> Result<(Row, &[u8]), RowFault>
    ensures { Reads (λ x. (x.0, x.1.now)) result (row_of set kinds.ExitTaint bytes.now) }
{
    if !set.is_paths() {
        return Err(RowFault::Bad);
    }
    let (activation, rest) = activation_from(bytes)?;
    let (how, rest) = exit_from(rest)?;
    let ((path, label), rest) = labelled_from(rest)?;
    Ok((Row::ExitTaint(activation, how, path, label), rest))
}
