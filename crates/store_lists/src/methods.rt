//! The rows of methods.
ghost use Rattle.std.specs.Prelude.{◌≡◌, ◌≤◌, ◌++◌, ◌∷◌, [], IfOk, length, map};
ghost use Rattle.store_lists.specs.Methods.{is_listed, listed_class, signature_at, sink_fits};
ghost use Rattle.store_lists.specs.Methods.{sink_with, sink_at, summary_of, method_row, methods_of};
ghost use Rattle.method_fields.specs.Positions.{listed_at};
ghost use Rattle.toml.specs.View.{table_view, view};
ghost use Rattle.vet_base.specs.Script.{Gives};

use app_machine::Summary;
use form_fields::{Fault, Index, Key, Section, Shape, Spelling, known, table_in, text_at};
use method_fields::{
    MethodKey, Signature, flag_at, gives_at, gives_reference, has_key, items_at, listed_at,
    named_at, pairs_at, position_count, positions_at, proto_at,
};
use std::alloc::Global;
use toml::{Table, Value};
use vet_base::{Memory, Name, Seq, Stop};

/// What a row may name.
#[derive(Drop)]
pub struct Listed {
    pub categories: Index<Name>,
    pub classes: Index<Name>,
    pub shared: Index<Name>,
}

/// The rows so far, and what tells each from the others.
#[derive(Drop)]
pub struct MethodRows {
    pub rows: Seq<Summary>,
    pub keys: Seq<MethodKey>,
}

/// Reads the rows.
#[tactic(auto, unfolding(crate::specs::Methods::methods_of), using(form_fields::proofs::Eaching::eaching_begins, form_fields::proofs::Eaching::eaching_goes_on, form_fields::proofs::Eaching::eaching_fails, form_fields::proofs::Eaching::eaching_is_done))]
pub fn methods_of(
    alloc: Global,
    tables: &[Value],
    listed: &Listed,
) -> Result<MethodRows, Stop<Fault>>
    requires categories { length listed.now.categories ≤ 200 }
    requires shared { length listed.now.shared ≤ 65536 }
    ensures { Gives (λ x. x) result (methods_of listed.now (map view tables.now)) }
{
    let mut rows = MethodRows {
        rows: Seq::new(alloc),
        keys: Seq::new(alloc),
    };
    for value in tables {
        rows = method_row(alloc, value, listed, rows)?;
    }
    Ok(rows)
}

/// One row more.
#[tactic(auto, unfolding(crate::specs::Methods::method_row), using(vet_base::proofs::Scripts::run_bind))]
fn method_row(
    alloc: Global,
    value: &Value,
    listed: &Listed,
    rows: MethodRows,
) -> Result<MethodRows, Stop<Fault>>
    requires categories { length listed.now.categories ≤ 200 }
    requires shared { length listed.now.shared ≤ 65536 }
    ensures { Gives (λ x. x) result (method_row listed.now (view value.now) rows) }
{
    let table = table_in(value, Section::Lists, Key::Method)?;
    known(alloc, table, Section::Method)?;
    let at = signature_at(alloc, table, &listed.classes)?;
    let key = at.key()?;
    let summary = summary_of(alloc, table, listed, at)?;
    Ok(with_method(rows, summary, key)?)
}

fn with_method(rows: MethodRows, summary: Summary, key: MethodKey) -> Result<MethodRows, Memory>
    ensures { IfOk result (λ x. x ≡ record { rows = rows.rows ++ summary ∷ []; keys = rows.keys ++ key ∷ [] }) }
{
    let MethodRows { mut rows, mut keys } = rows;
    rows.push(summary)?;
    keys.push(key)?;
    Ok(MethodRows { rows, keys })
}

/// Whether a name is one of these.
#[tactic(auto, unfolding(crate::specs::Methods::is_listed))]
fn is_listed(names: &Index<Name>, name: &Name) -> bool
    ensures { result ≡ is_listed names.now name.now }
{
    names.place_of(name).is_some()
}

/// The class of a row, which has a row of its own.
#[tactic(auto, unfolding(crate::specs::Methods::listed_class), using(vet_base::proofs::Scripts::run_bind))]
fn listed_class(alloc: Global, table: &Table, classes: &Index<Name>) -> Result<Name, Stop<Fault>>
    ensures { Gives (λ n. n) result (listed_class classes.now (table_view table.now)) }
{
    let class = text_at(alloc, table, Section::Method, Key::Class, Spelling::Class)?;
    if !is_listed(classes, &class) {
        return Err(Stop::Fault(Fault::Range(Section::Method, Key::Class)));
    }
    Ok(class)
}

#[tactic(auto, unfolding(crate::specs::Methods::signature_at), using(vet_base::proofs::Scripts::run_bind))]
fn signature_at(
    alloc: Global,
    table: &Table,
    classes: &Index<Name>,
) -> Result<Signature, Stop<Fault>>
    ensures { Gives (λ x. x) result (signature_at classes.now (table_view table.now)) }
{
    let class = listed_class(alloc, table, classes)?;
    let name = text_at(alloc, table, Section::Method, Key::Name, Spelling::Text)?;
    let (proto, descriptor) = proto_at(alloc, table, Section::Method)?;
    let is_static = flag_at(table, Section::Method, Key::Static)?;
    Ok(Signature {
        class,
        name,
        proto,
        descriptor,
        is_static,
    })
}

/// What a row says beside its signature.
#[tactic(auto, unfolding(crate::specs::Methods::summary_of), using(vet_base::proofs::Scripts::run_bind))]
fn summary_of(
    alloc: Global,
    table: &Table,
    listed: &Listed,
    at: Signature,
) -> Result<Summary, Stop<Fault>>
    requires categories { length listed.now.categories ≤ 200 }
    requires shared { length listed.now.shared ≤ 65536 }
    ensures { Gives (λ x. x) result (summary_of listed.now at (table_view table.now)) }
{
    let count = position_count(at.is_static, &at.proto);
    let reference = gives_reference(&at.proto);
    let gives = gives_at(alloc, table, &listed.shared, count, reference)?;
    let puts = pairs_at(alloc, table, Section::Method, Key::Puts, count)?;
    let stores = named_at(
        alloc,
        table,
        Section::Method,
        Key::Stores,
        count,
        &listed.shared,
    )?;
    let copies = pairs_at(alloc, table, Section::Method, Key::Copies, count)?;
    let source = category_at(
        alloc,
        table,
        Section::Method,
        Key::Source,
        &listed.categories,
    )?;
    let sink = sink_at(alloc, table, &listed.categories, count)?;
    let reflective = flag_at(table, Section::Method, Key::Reflective)?;
    Ok(Summary {
        class: at.class,
        name: at.name,
        proto: at.proto,
        is_static: at.is_static,
        gives,
        puts: Seq::from_vec(puts),
        stores: Seq::from_vec(stores),
        copies: Seq::from_vec(copies),
        source,
        sink,
        reflective,
    })
}

/// A category by its number.
pub fn category_at(
    alloc: Global,
    table: &Table,
    section: Section,
    key: Key,
    categories: &Index<Name>,
) -> Result<Option<u8>, Stop<Fault>>
    requires { length categories.now ≤ 200 }
    ensures { Gives (λ n. n) result (listed_at section key categories.now (table_view table.now)) }
{
    match listed_at(alloc, table, section, key, categories)? {
        Some(number) => Ok(Some(number as u8)),
        None => Ok(None),
    }
}

/// The category and the positions of a sink: the positions are there exactly with the category; that they
/// are numbers is tested before.
#[tactic(auto, unfolding(crate::specs::Methods::sink_at), using(vet_base::proofs::Scripts::run_bind))]
fn sink_at(
    alloc: Global,
    table: &Table,
    categories: &Index<Name>,
    count: usize,
) -> Result<Option<(u8, Seq<u32>)>, Stop<Fault>>
    requires { length categories.now ≤ 200 }
    ensures { Gives (λ x. x) result (sink_at categories.now count (table_view table.now)) }
{
    let sink = category_at(alloc, table, Section::Method, Key::Sink, categories)?;
    items_at(table, Section::Method, Key::Positions, Shape::Number)?;
    if !sink_fits(sink, has_key(table, Key::Positions)) {
        return Err(Stop::Fault(Fault::Range(Section::Method, Key::Positions)));
    }
    let positions = positions_at(alloc, table, Section::Method, Key::Positions, count)?;
    Ok(sink_with(sink, positions))
}

#[tactic(auto, unfolding(crate::specs::Methods::sink_fits))]
fn sink_fits(sink: Option<u8>, there: bool) -> bool
    ensures { result ≡ sink_fits sink there }
{
    match sink {
        Some(_) => there,
        None => !there,
    }
}

#[tactic(auto, unfolding(crate::specs::Methods::sink_with))]
fn sink_with(sink: Option<u8>, positions: Vec<u32>) -> Option<(u8, Seq<u32>)>
    ensures { result ≡ sink_with sink positions.items }
{
    match sink {
        Some(category) => Some((category, Seq::from_vec(positions))),
        None => None,
    }
}
