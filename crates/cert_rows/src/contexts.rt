//! Contexts, activations and nodes.
ghost use Rattle.std.specs.Prelude.{◌≡◌, ◌++◌, ◌∷◌, [], OnOk};
ghost use Rattle.cert_rows.specs.Reading.{Reads, two_from, lone_from, call2_from, ctx_of};
ghost use Rattle.cert_rows.specs.Reading.{ctx_from, activation_from, node_from};
ghost use Rattle.cert_rows.specs.Spelling.{tagged, ctx_bytes, activation_bytes, node_bytes};
ghost use Rattle.cert_rows.specs.Fitting.{AreSmall};
ghost use Rattle.fact_rows.specs.Order.{numbers_of_ctx, numbers_of_activation, numbers_of_node};

use crate::RowFault;
use crate::numbers::{byte_from, put_u4, u4_from, zero_from};
use fact_rows::{Activation, Ctx, Node};
use vet_base::Memory;

#[tactic(auto, unfolding(crate::specs::Reading::two_from), using(vet_base::proofs::Scripts::run_bind))]
pub fn two_from(bytes: &[u8]) -> Result<((u32, u32), &[u8]), RowFault>
    ensures { Reads (λ x. (x.0, x.1.now)) result (two_from bytes.now) }
{
    let (a, rest) = u4_from(bytes)?;
    let (b, rest) = u4_from(rest)?;
    Ok(((a, b), rest))
}

/// A number, and a 0 behind it.
#[tactic(auto, unfolding(crate::specs::Reading::lone_from), using(vet_base::proofs::Scripts::run_bind))]
fn lone_from(bytes: &[u8]) -> Result<(u32, &[u8]), RowFault>
    ensures { Reads (λ x. (x.0, x.1.now)) result (lone_from bytes.now) }
{
    let (number, rest) = u4_from(bytes)?;
    let rest = zero_from(rest)?;
    Ok((number, rest))
}

#[tactic(auto, unfolding(crate::specs::Reading::call2_from), using(vet_base::proofs::Scripts::run_bind))]
fn call2_from(bytes: &[u8]) -> Result<(Ctx, &[u8]), RowFault>
    ensures { Reads (λ x. (x.0, x.1.now)) result (call2_from bytes.now) }
{
    let ((method, pc), rest) = two_from(bytes)?;
    let ((caller, at), rest) = two_from(rest)?;
    Ok((Ctx::Call2(method, pc, caller, at), rest))
}

/// A context of the kind.
#[tactic(auto, unfolding(crate::specs::Reading::ctx_of), using(vet_base::proofs::Scripts::run_bind))]
fn ctx_of(kind: u8, bytes: &[u8]) -> Result<(Ctx, &[u8]), RowFault>
    ensures { Reads (λ x. (x.0, x.1.now)) result (ctx_of kind bytes.now) }
{
    match kind {
        0 => {
            let ((component, row), rest) = two_from(bytes)?;
            Ok((Ctx::Row(component, row), rest))
        }
        1 => {
            let ((component, callback), rest) = two_from(bytes)?;
            Ok((Ctx::Callback(component, callback), rest))
        }
        2 => {
            let ((component, click), rest) = two_from(bytes)?;
            Ok((Ctx::Click(component, click), rest))
        }
        3 => {
            let (callback, rest) = lone_from(bytes)?;
            Ok((Ctx::Handed(callback), rest))
        }
        4 => {
            let (component, rest) = lone_from(bytes)?;
            Ok((Ctx::Init(component), rest))
        }
        5 => {
            let ((method, pc), rest) = two_from(bytes)?;
            Ok((Ctx::Call(method, pc), rest))
        }
        6 => call2_from(bytes),
        _ => Err(RowFault::Bad),
    }
}

#[tactic(auto, unfolding(crate::specs::Reading::ctx_from), using(vet_base::proofs::Scripts::run_bind))]
pub fn ctx_from(bytes: &[u8]) -> Result<(Ctx, &[u8]), RowFault>
    ensures { Reads (λ x. (x.0, x.1.now)) result (ctx_from bytes.now) }
{
    let (kind, rest) = byte_from(bytes)?;
    ctx_of(kind, rest)
}

#[tactic(auto, unfolding(crate::specs::Reading::activation_from), using(vet_base::proofs::Scripts::run_bind))]
pub fn activation_from(bytes: &[u8]) -> Result<(Activation, &[u8]), RowFault>
    ensures { Reads (λ x. (x.0, x.1.now)) result (activation_from bytes.now) }
{
    let (ctx, rest) = ctx_from(bytes)?;
    let (method, rest) = u4_from(rest)?;
    Ok((Activation { ctx, method }, rest))
}

#[tactic(auto, unfolding(crate::specs::Reading::node_from), using(vet_base::proofs::Scripts::run_bind))]
pub fn node_from(bytes: &[u8]) -> Result<(Node, &[u8]), RowFault>
    ensures { Reads (λ x. (x.0, x.1.now)) result (node_from bytes.now) }
{
    let (by, rest) = activation_from(bytes)?;
    let (pc, rest) = u4_from(rest)?;
    Ok((Node { by, pc }, rest))
}

/// A kind and two numbers.
fn put_three(out: &mut Vec<u8>, kind: u8, a: u32, b: u32) -> Result<(), Memory>
    ensures bytes { OnOk result (out.new.items ≡ out.old.items ++ tagged (kind ∷ a ∷ b ∷ [])) }
    ensures fits { OnOk result (AreSmall (kind ∷ a ∷ b ∷ [])) }
{
    out.push(kind)?;
    put_u4(out, a)?;
    put_u4(out, b)
}

#[tactic(auto, unfolding(crate::specs::Spelling::ctx_bytes))]
pub fn put_ctx(out: &mut Vec<u8>, ctx: Ctx) -> Result<(), Memory>
    ensures bytes { OnOk result (out.new.items ≡ out.old.items ++ ctx_bytes ctx) }
    ensures fits { OnOk result (AreSmall (numbers_of_ctx ctx)) }
{
    match ctx {
        Ctx::Row(a, b) => put_three(out, 0, a, b),
        Ctx::Callback(a, b) => put_three(out, 1, a, b),
        Ctx::Click(a, b) => put_three(out, 2, a, b),
        Ctx::Handed(a) => put_three(out, 3, a, 0),
        Ctx::Init(a) => put_three(out, 4, a, 0),
        Ctx::Call(a, b) => put_three(out, 5, a, b),
        Ctx::Call2(a, b, c, d) => {
            put_three(out, 6, a, b)?;
            put_u4(out, c)?;
            put_u4(out, d)
        }
    }
}

pub fn put_activation(out: &mut Vec<u8>, a: Activation) -> Result<(), Memory>
    ensures bytes { OnOk result (out.new.items ≡ out.old.items ++ activation_bytes a) }
    ensures fits { OnOk result (AreSmall (numbers_of_activation a)) }
{
    put_ctx(out, a.ctx)?;
    put_u4(out, a.method)
}

pub fn put_node(out: &mut Vec<u8>, n: Node) -> Result<(), Memory>
    ensures bytes { OnOk result (out.new.items ≡ out.old.items ++ node_bytes n) }
    ensures fits { OnOk result (AreSmall (numbers_of_node n)) }
{
    put_activation(out, n.by)?;
    put_u4(out, n.pc)
}
