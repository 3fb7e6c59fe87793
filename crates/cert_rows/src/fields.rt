//! The fields of rows.
ghost use Rattle.std.specs.Prelude.{◌≡◌, ◌++◌, OnOk};
ghost use Rattle.fact_rows.specs.Order.{numbers_of_use};
ghost use Rattle.cert_rows.specs.Fitting.{AreSmall, FieldIsSmall};
ghost use Rattle.cert_rows.specs.Reading.{Reads};
ghost use Rattle.cert_rows.specs.Rows.{key_from, exit_from, cause_from, use_of_kind, use_from, labelled_from};
ghost use Rattle.cert_rows.specs.Spelling.{use_bytes, field_bytes};

use crate::RowFault;
use crate::contexts::{put_activation, put_node};
use crate::numbers::{byte_from, put_u4, u4_from};
use crate::paths::{path_from, put_path};
use crate::sites::put_site;
use access_path::Path;
use app_machine::SummaryId;
use fact_rows::Field;
use vet_base::{KeyId, Memory};

pub fn key_from(bytes: &[u8]) -> Result<(KeyId, &[u8]), RowFault>
    ensures { Reads (λ x. (x.0, x.1.now)) result (key_from bytes.now) }
{
    let (key, rest) = u4_from(bytes)?;
    Ok((KeyId(key), rest))
}

/// How an activation ends.
#[tactic(auto, unfolding(crate::specs::Rows::exit_from), using(vet_base::proofs::Scripts::run_bind))]
pub fn exit_from(bytes: &[u8]) -> Result<(u8, &[u8]), RowFault>
    ensures { Reads (λ x. (x.0, x.1.now)) result (exit_from bytes.now) }
{
    let (how, rest) = byte_from(bytes)?;
    if how > 1 {
        return Err(RowFault::Bad);
    }
    Ok((how, rest))
}

/// Why what comes next may not be modelled.
#[tactic(auto, unfolding(crate::specs::Rows::cause_from), using(vet_base::proofs::Scripts::run_bind))]
pub fn cause_from(bytes: &[u8]) -> Result<(u8, &[u8]), RowFault>
    ensures { Reads (λ x. (x.0, x.1.now)) result (cause_from bytes.now) }
{
    let (cause, rest) = byte_from(bytes)?;
    if cause == 0 || cause > 3 {
        return Err(RowFault::Bad);
    }
    Ok((cause, rest))
}

#[tactic(auto, unfolding(crate::specs::Rows::use_of_kind), using(vet_base::proofs::Scripts::run_bind))]
fn use_of_kind(kind: u8, bytes: &[u8]) -> Result<(SummaryId, &[u8]), RowFault>
    ensures { Reads (λ x. (x.0, x.1.now)) result (use_of_kind kind bytes.now) }
{
    match kind {
        0 => {
            let (row, rest) = u4_from(bytes)?;
            Ok((SummaryId::Row(row), rest))
        }
        1 => {
            let (class, rest) = u4_from(bytes)?;
            Ok((SummaryId::Fallback(class), rest))
        }
        _ => Err(RowFault::Bad),
    }
}

#[tactic(auto, unfolding(crate::specs::Rows::use_from), using(vet_base::proofs::Scripts::run_bind))]
pub fn use_from(bytes: &[u8]) -> Result<(SummaryId, &[u8]), RowFault>
    ensures { Reads (λ x. (x.0, x.1.now)) result (use_from bytes.now) }
{
    let (kind, rest) = byte_from(bytes)?;
    use_of_kind(kind, rest)
}

/// A path and its label.
#[tactic(auto, unfolding(crate::specs::Rows::labelled_from), using(vet_base::proofs::Scripts::run_bind))]
pub fn labelled_from(bytes: &[u8]) -> Result<((Path, u8), &[u8]), RowFault>
    ensures { Reads (λ x. (x.0, x.1.now)) result (labelled_from bytes.now) }
{
    let (path, rest) = path_from(bytes)?;
    let (label, rest) = byte_from(rest)?;
    Ok(((path, label), rest))
}

#[tactic(auto, unfolding(crate::specs::Spelling::use_bytes))]
fn put_use(out: &mut Vec<u8>, summary: SummaryId) -> Result<(), Memory>
    ensures bytes { OnOk result (out.new.items ≡ out.old.items ++ use_bytes summary) }
    ensures fits { OnOk result (AreSmall (numbers_of_use summary)) }
{
    match summary {
        SummaryId::Row(row) => {
            out.push(0)?;
            put_u4(out, row)
        }
        SummaryId::Fallback(class) => {
            out.push(1)?;
            put_u4(out, class)
        }
    }
}

#[tactic(auto, unfolding(crate::specs::Spelling::field_bytes))]
pub fn put_field(out: &mut Vec<u8>, field: Field) -> Result<(), Memory>
    ensures bytes { OnOk result (out.new.items ≡ out.old.items ++ field_bytes field) }
    ensures small { OnOk result (FieldIsSmall field) }
{
    match field {
        Field::Node(node) => put_node(out, node),
        Field::Activation(activation) => put_activation(out, activation),
        Field::Site(site) => put_site(out, site),
        Field::Path(path) => put_path(out, path),
        Field::Use(summary) => put_use(out, summary),
        Field::Register(_, number) | Field::Static(number) | Field::Component(number) => {
            put_u4(out, number)
        }
        Field::Key(key) => put_u4(out, key.0),
        Field::Category(byte)
        | Field::Exit(byte)
        | Field::State(_, byte)
        | Field::Cause(byte)
        | Field::Label(byte) => {
            out.push(byte)?;
            Ok(())
        }
    }
}
