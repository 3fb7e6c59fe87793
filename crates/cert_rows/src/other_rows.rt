//! Rows that begin with a static, a component or a category.
ghost use Rattle.std.specs.Prelude.{◌≡◌};
ghost use Rattle.fact_rows.specs.declared.kind.Kind.TheVariants as kinds;
ghost use Rattle.fact_rows.specs.declared.row.Row.TheVariants as row;
ghost use Rattle.cert_rows.specs.Reading.{Reads, byte_from, u4_from, node_from};
ghost use Rattle.cert_rows.specs.Rows.{two, three, row_of};

use crate::contexts::node_from;
use crate::fields::labelled_from;
use crate::numbers::{byte_from, u4_from};
use crate::sites::site_from;
use crate::{RowFault, Set};
use fact_rows::Row;

#[tactic(auto, unfolding(crate::specs::Rows::row_of), using(vet_base::proofs::Scripts::run_bind))]
pub fn static_points_from(set: Set, bytes: &[u8]) -> Result<(Row, &[u8]), RowFault>
    ensures { Reads (λ x. (x.0, x.1.now)) result (row_of set kinds.StaticPoints bytes.now) }
{
    let (fixed, rest) = u4_from(bytes)?;
    let (site, rest) = site_from(set, rest)?;
    Ok((Row::StaticPoints(fixed, site), rest))
}

#[tactic(auto, unfolding(crate::specs::Rows::row_of), using(vet_base::proofs::Scripts::run_bind))]
pub fn static_taint_from(set: Set, bytes: &[u8]) -> Result<(Row, &[u8]), RowFault>
    ensures { Reads (λ x. (x.0, x.1.now)) result (row_of set kinds.StaticTaint bytes.now) }
{
    if !set.is_paths() {
        return Err(RowFault::Bad);
    }
    let (fixed, rest) = u4_from(bytes)?;
    let ((path, label), rest) = labelled_from(rest)?;
    Ok((Row::StaticTaint(fixed, path, label), rest))
}

#[tactic(auto, using(vet_base::proofs::Scripts::run_bind))]
pub fn live_from(bytes: &[u8]) -> Result<(Row, &[u8]), RowFault>
    ensures { Reads (λ x. (x.0, x.1.now)) result (two u4_from byte_from row.Live bytes.now) }
{
    let (component, rest) = u4_from(bytes)?;
    let (state, rest) = byte_from(rest)?;
    Ok((Row::Live(component, state), rest))
}

#[tactic(auto, unfolding(crate::specs::Rows::row_of), using(vet_base::proofs::Scripts::run_bind))]
pub fn comp_taint_from(set: Set, bytes: &[u8]) -> Result<(Row, &[u8]), RowFault>
    ensures { Reads (λ x. (x.0, x.1.now)) result (row_of set kinds.CompTaint bytes.now) }
{
    if !set.is_paths() {
        return Err(RowFault::Bad);
    }
    let (component, rest) = u4_from(bytes)?;
    let (state, rest) = byte_from(rest)?;
    let ((path, label), rest) = labelled_from(rest)?;
    Ok((Row::CompTaint(component, state, path, label), rest))
}

#[tactic(auto, using(vet_base::proofs::Scripts::run_bind))]
pub fn arrive_from(bytes: &[u8]) -> Result<(Row, &[u8]), RowFault>
    ensures { Reads (λ x. (x.0, x.1.now)) result (three byte_from byte_from node_from row.Arrive bytes.now) }
{
    let (label, rest) = byte_from(bytes)?;
    let (sink, rest) = byte_from(rest)?;
    let (node, rest) = node_from(rest)?;
    Ok((Row::Arrive(label, sink, node), rest))
}
