//! Rows: their kind, and then their fields.
ghost use Rattle.std.specs.Prelude.{◌≡◌, ◌++◌, OnOk};
ghost use Rattle.std.specs.List.{flat_map, AllByRecursion};
ghost use Rattle.cert_rows.specs.Fitting.{FieldIsSmall, RowIsSmall};
ghost use Rattle.cert_rows.specs.Reading.{Reads};
ghost use Rattle.cert_rows.specs.Rows.{row_of, row_from};
ghost use Rattle.cert_rows.specs.Spelling.{field_bytes, row_bytes};

use crate::activation_rows::{
    called_by_from, exit_points_from, exit_taint_from, method_effect_from,
};
use crate::fields::put_field;
use crate::kinds::kind_from;
use crate::label_rows::{
    cell_label_from, exit_label_from, holds_from, label_from, static_label_from,
};
use crate::node_rows::{
    calls_from, effect_from, points_from, reached_from, taint_from, unknown_from, uses_from,
};
use crate::other_rows::{
    arrive_from, comp_taint_from, live_from, static_points_from, static_taint_from,
};
use crate::site_rows::{back_from, cell_from, handed_from, handed_taint_from};
use crate::{RowFault, Set};
use fact_rows::{Field, Kind, Row};
use vet_base::Memory;

/// A row of the kind, as the set has it.
fn row_of(set: Set, kind: Kind, bytes: &[u8]) -> Result<(Row, &[u8]), RowFault>
    ensures { Reads (λ x. (x.0, x.1.now)) result (row_of set kind bytes.now) }
{
    match kind {
        Kind::Reached => reached_from(bytes),
        Kind::Points => points_from(set, bytes),
        Kind::Taint => taint_from(set, bytes),
        Kind::Cell => cell_from(set, bytes),
        Kind::Back => back_from(set, bytes),
        Kind::StaticPoints => static_points_from(set, bytes),
        Kind::StaticTaint => static_taint_from(set, bytes),
        Kind::Calls => calls_from(bytes),
        Kind::CalledBy => called_by_from(bytes),
        Kind::Effect => effect_from(set, bytes),
        Kind::MethodEffect => method_effect_from(set, bytes),
        Kind::ExitPoints => exit_points_from(set, bytes),
        Kind::ExitTaint => exit_taint_from(set, bytes),
        Kind::Live => live_from(bytes),
        Kind::CompTaint => comp_taint_from(set, bytes),
        Kind::Handed => handed_from(set, bytes),
        Kind::HandedTaint => handed_taint_from(set, bytes),
        Kind::Arrive => arrive_from(bytes),
        Kind::Unknown => unknown_from(bytes),
        Kind::Uses => uses_from(bytes),
        Kind::Label => label_from(set, bytes),
        Kind::StaticLabel => static_label_from(set, bytes),
        Kind::CellLabel => cell_label_from(set, bytes),
        Kind::Holds => holds_from(set, bytes),
        Kind::ExitLabel => exit_label_from(set, bytes),
    }
}

/// The row that the bytes begin with, where certificates of the set can have it, and the bytes behind it.
#[tactic(auto, unfolding(crate::specs::Rows::row_from), using(vet_base::proofs::Scripts::run_bind))]
pub fn row_from(set: Set, bytes: &[u8]) -> Result<(Row, &[u8]), RowFault>
    ensures { Reads (λ x. (x.0, x.1.now)) result (row_from set bytes.now) }
{
    let (kind, rest) = kind_from(bytes)?;
    row_of(set, kind, rest)
}

fn put_fields(out: &mut Vec<u8>, fields: &[Field]) -> Result<(), Memory>
    ensures bytes { OnOk result (out.new.items ≡ out.old.items ++ flat_map field_bytes fields.now) }
    ensures small { OnOk result (AllByRecursion FieldIsSmall fields.now) }
{
    match fields {
        [] => Ok(()),
        [field, others @ ..] => {
            put_field(out, *field)?;
            put_fields(out, others)
        }
    }
}

/// The row, also one that no certificate has, behind what was written before. After want of memory some
/// of it may have been.
#[tactic(auto, unfolding(crate::specs::Spelling::row_bytes))]
pub fn put_row(out: &mut Vec<u8>, row: &Row) -> Result<(), Memory>
    ensures bytes { OnOk result (out.new.items ≡ out.old.items ++ row_bytes row.now) }
    ensures small { OnOk result (RowIsSmall row.now) }
{
    let parts = row.parts();
    out.push(parts.kind.number())?;
    put_fields(out, parts.fields.as_slice())
}
