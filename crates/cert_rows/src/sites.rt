//! Sites.
ghost use Rattle.std.specs.Prelude.{◌≡◌, ◌++◌, OnOk};
ghost use Rattle.fact_rows.specs.Order.{numbers_of_site};
ghost use Rattle.cert_rows.specs.Fitting.{AreSmall};
ghost use Rattle.cert_rows.specs.Parts.{param_from, made_from, site_of, site_from};
ghost use Rattle.cert_rows.specs.Reading.{Reads};
ghost use Rattle.cert_rows.specs.Spelling.{site_bytes};

use crate::contexts::{ctx_from, node_from, put_ctx, put_node, two_from};
use crate::numbers::{byte_from, put_u4, u4_from};
use crate::{RowFault, Set};
use fact_rows::Site;
use vet_base::Memory;

#[tactic(auto, unfolding(crate::specs::Parts::param_from), using(vet_base::proofs::Scripts::run_bind))]
fn param_from(bytes: &[u8]) -> Result<(Site, &[u8]), RowFault>
    ensures { Reads (λ x. (x.0, x.1.now)) result (param_from bytes.now) }
{
    let (ctx, rest) = ctx_from(bytes)?;
    let (position, rest) = u4_from(rest)?;
    Ok((Site::Param(ctx, position), rest))
}

/// A method and an address, in whatever context.
#[tactic(auto, unfolding(crate::specs::Parts::made_from), using(vet_base::proofs::Scripts::run_bind))]
fn made_from(set: Set, bytes: &[u8]) -> Result<(Site, &[u8]), RowFault>
    ensures { Reads (λ x. (x.0, x.1.now)) result (made_from set bytes.now) }
{
    if !set.is_cells() {
        return Err(RowFault::Bad);
    }
    let ((method, pc), rest) = two_from(bytes)?;
    Ok((Site::Made(method, pc), rest))
}

/// A site of the kind.
#[tactic(auto, unfolding(crate::specs::Parts::site_of), using(vet_base::proofs::Scripts::run_bind))]
fn site_of(set: Set, kind: u8, bytes: &[u8]) -> Result<(Site, &[u8]), RowFault>
    ensures { Reads (λ x. (x.0, x.1.now)) result (site_of set kind bytes.now) }
{
    match kind {
        0 => {
            let (node, rest) = node_from(bytes)?;
            Ok((Site::At(node), rest))
        }
        1 => param_from(bytes),
        2 => {
            let (component, rest) = u4_from(bytes)?;
            Ok((Site::Component(component), rest))
        }
        3 => {
            let (shared, rest) = u4_from(bytes)?;
            Ok((Site::Shared(shared), rest))
        }
        4 => made_from(set, bytes),
        _ => Err(RowFault::Bad),
    }
}

#[tactic(auto, unfolding(crate::specs::Parts::site_from), using(vet_base::proofs::Scripts::run_bind))]
pub fn site_from(set: Set, bytes: &[u8]) -> Result<(Site, &[u8]), RowFault>
    ensures { Reads (λ x. (x.0, x.1.now)) result (site_from set bytes.now) }
{
    let (kind, rest) = byte_from(bytes)?;
    site_of(set, kind, rest)
}

#[tactic(auto, unfolding(crate::specs::Spelling::site_bytes))]
pub fn put_site(out: &mut Vec<u8>, site: Site) -> Result<(), Memory>
    ensures bytes { OnOk result (out.new.items ≡ out.old.items ++ site_bytes site) }
    ensures fits { OnOk result (AreSmall (numbers_of_site site)) }
{
    match site {
        Site::At(node) => {
            out.push(0)?;
            put_node(out, node)
        }
        Site::Param(ctx, position) => {
            out.push(1)?;
            put_ctx(out, ctx)?;
            put_u4(out, position)
        }
        Site::Component(component) => {
            out.push(2)?;
            put_u4(out, component)
        }
        Site::Shared(shared) => {
            out.push(3)?;
            put_u4(out, shared)
        }
        Site::Made(method, pc) => {
            out.push(4)?;
            put_u4(out, method)?;
            put_u4(out, pc)
        }
    }
}
