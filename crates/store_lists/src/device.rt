//! What the lists say of a device, and of static fields that no one writes.
ghost use Rattle.std.specs.Prelude.{◌≡◌, ◌≤◌, ◌+◌, ◌++◌, ◌∷◌, [], IsTrue, IfOk, length, map};
ghost use Rattle.store_lists.specs.Device.{are_counted, prefixes_at, device_at, static_key};
ghost use Rattle.store_lists.specs.Device.{static_at, static_row, statics_of};
ghost use Rattle.toml.specs.View.{table_view, view};
ghost use Rattle.vet_base.specs.Script.{Gives};

use crate::methods::category_at;
use app_machine::StaticRow;
use form_fields::{
    Fault, Index, Key, Section, Spelling, known, maybe_texts_at, table_in, tables_at, text_at,
    with_new,
};
use method_fields::{MethodKey, flag_at, type_at};
use std::alloc::Global;
use toml::{Table, Value};
use vet_base::{Memory, Name, Seq, Stop};

/// What the top table says of a device.
#[derive(Drop)]
pub struct DeviceKeys {
    pub strict: bool,
    pub platform: Seq<Name>,
    pub bundled: Seq<Name>,
}

/// The rows of static fields so far, and what tells each from the others.
#[derive(Drop)]
pub struct StaticRows {
    pub rows: Seq<StaticRow>,
    pub keys: Seq<MethodKey>,
}

/// What the top table says of a device, and the tables of the static fields.
#[tactic(auto, unfolding(crate::specs::Device::device_at), using(vet_base::proofs::Scripts::run_bind))]
pub fn device_at<'a>(
    alloc: Global,
    tree: &'a Table,
) -> Result<(DeviceKeys, &'a [Value]), Stop<Fault>>
    ensures { Gives (λ x. (x.0, map view x.1.now)) result (device_at (table_view tree.now)) }
{
    let strict = flag_at(tree, Section::Lists, Key::Strict)?;
    let (platform, names) = prefixes_at(alloc, tree, Key::Platform, Index::new(alloc))?;
    let (bundled, _) = prefixes_at(alloc, tree, Key::Bundled, names)?;
    let statics = tables_at(tree, Section::Lists, Key::Static, 65536)?;
    let keys = DeviceKeys {
        strict,
        platform: Seq::from_vec(platform),
        bundled: Seq::from_vec(bundled),
    };
    Ok((keys, statics))
}

/// Beginnings of names, none of them twice and none of those before; and all with those before.
#[tactic(auto, unfolding(crate::specs::Device::prefixes_at), using(vet_base::proofs::Scripts::run_bind))]
fn prefixes_at(
    alloc: Global,
    tree: &Table,
    key: Key,
    before: Index<Name>,
) -> Result<(Vec<Name>, Index<Name>), Stop<Fault>>
    requires { length before ≤ 4096 }
    ensures value { Gives (λ x. (x.0.items, x.1)) result (prefixes_at key before (table_view tree.now)) }
    ensures few { IfOk result (λ x. length x.1 ≤ length before + 4096) }
{
    let names = maybe_texts_at(alloc, tree, Section::Lists, key, Spelling::Prefix, 4096)?;
    let count = before.len() + names.len();
    let all = with_new(before, &names)?;
    if !are_counted(count, &all) {
        return Err(Stop::Fault(Fault::Range(Section::Lists, key)));
    }
    Ok((names, all))
}

/// Whether there are so many names.
#[tactic(auto, unfolding(crate::specs::Device::are_counted))]
fn are_counted(count: usize, names: &Index<Name>) -> bool
    ensures value { result ≡ are_counted count names.now }
    ensures same { IsTrue result → length names.now ≡ count }
{
    names.len() == count
}

/// Reads the rows of static fields.
#[tactic(auto, unfolding(crate::specs::Device::statics_of), using(form_fields::proofs::Eaching::eaching_begins, form_fields::proofs::Eaching::eaching_goes_on, form_fields::proofs::Eaching::eaching_fails, form_fields::proofs::Eaching::eaching_is_done))]
pub fn statics_of(
    alloc: Global,
    tables: &[Value],
    categories: &Index<Name>,
) -> Result<StaticRows, Stop<Fault>>
    requires { length categories.now ≤ 200 }
    ensures { Gives (λ x. x) result (statics_of categories.now (map view tables.now)) }
{
    let mut rows = StaticRows {
        rows: Seq::new(alloc),
        keys: Seq::new(alloc),
    };
    for value in tables {
        rows = static_row(alloc, value, categories, rows)?;
    }
    Ok(rows)
}

/// One row more.
#[tactic(auto, unfolding(crate::specs::Device::static_row), using(vet_base::proofs::Scripts::run_bind))]
fn static_row(
    alloc: Global,
    value: &Value,
    categories: &Index<Name>,
    rows: StaticRows,
) -> Result<StaticRows, Stop<Fault>>
    requires { length categories.now ≤ 200 }
    ensures { Gives (λ x. x) result (static_row categories.now (view value.now) rows) }
{
    let row = static_at(alloc, value, categories)?;
    let key = static_key(&row)?;
    Ok(with_static(rows, row, key)?)
}

fn with_static(rows: StaticRows, row: StaticRow, key: MethodKey) -> Result<StaticRows, Memory>
    ensures { IfOk result (λ x. x ≡ record { rows = rows.rows ++ row ∷ []; keys = rows.keys ++ key ∷ [] }) }
{
    let StaticRows { mut rows, mut keys } = rows;
    rows.push(row)?;
    keys.push(key)?;
    Ok(StaticRows { rows, keys })
}

#[tactic(auto, unfolding(crate::specs::Device::static_key))]
fn static_key(row: &StaticRow) -> Result<MethodKey, Memory>
    ensures { IfOk result (λ k. k ≡ static_key row.now) }
{
    Ok(MethodKey {
        class: row.class.copy()?,
        name: row.name.copy()?,
        descriptor: row.kind.copy()?,
        is_static: true,
    })
}

#[tactic(auto, unfolding(crate::specs::Device::static_at), using(vet_base::proofs::Scripts::run_bind))]
fn static_at(
    alloc: Global,
    value: &Value,
    categories: &Index<Name>,
) -> Result<StaticRow, Stop<Fault>>
    requires { length categories.now ≤ 200 }
    ensures { Gives (λ x. x) result (static_at categories.now (view value.now)) }
{
    let table = table_in(value, Section::Lists, Key::Static)?;
    known(alloc, table, Section::Static)?;
    let class = text_at(alloc, table, Section::Static, Key::Class, Spelling::Class)?;
    let name = text_at(alloc, table, Section::Static, Key::Name, Spelling::Text)?;
    let kind = type_at(alloc, table, Section::Static)?;
    let source = category_at(alloc, table, Section::Static, Key::Source, categories)?;
    Ok(StaticRow {
        class,
        name,
        kind,
        source,
    })
}
