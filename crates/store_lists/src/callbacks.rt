//! The rows of callbacks.
ghost use Rattle.std.specs.Prelude.{◌≡◌, ◌≤◌, ◌++◌, ◌∷◌, [], IfOk, length, map};
ghost use Rattle.store_lists.specs.Callbacks.{called_at, callback_of, callback_at, callback_row, callbacks_of};
ghost use Rattle.method_fields.specs.Positions.{named_at, named_row, named_rows};
ghost use Rattle.toml.specs.View.{table_view, view};
ghost use Rattle.vet_base.specs.Script.{Gives};

use app_machine::Callback;
use form_fields::{Fault, Index, Key, Section, Shape, Spelling, known, table_in, text_at};
use method_fields::{MethodKey, Signature, items_at, named_row, position_count, proto_at};
use std::alloc::Global;
use toml::{Table, Value};
use vet_base::{Memory, Name, Seq, Stop};

/// The rows so far, and what tells each from the others.
#[derive(Drop)]
pub struct CallbackRows {
    pub rows: Seq<Callback>,
    pub keys: Seq<MethodKey>,
}

/// Reads the rows.
#[tactic(auto, unfolding(crate::specs::Callbacks::callbacks_of), using(form_fields::proofs::Eaching::eaching_begins, form_fields::proofs::Eaching::eaching_goes_on, form_fields::proofs::Eaching::eaching_fails, form_fields::proofs::Eaching::eaching_is_done))]
pub fn callbacks_of(
    alloc: Global,
    tables: &[Value],
    categories: &Index<Name>,
) -> Result<CallbackRows, Stop<Fault>>
    requires { length categories.now ≤ 200 }
    ensures { Gives (λ x. x) result (callbacks_of categories.now (map view tables.now)) }
{
    let mut rows = CallbackRows {
        rows: Seq::new(alloc),
        keys: Seq::new(alloc),
    };
    for value in tables {
        rows = callback_row(alloc, value, categories, rows)?;
    }
    Ok(rows)
}

/// One row more.
#[tactic(auto, unfolding(crate::specs::Callbacks::callback_row), using(vet_base::proofs::Scripts::run_bind))]
fn callback_row(
    alloc: Global,
    value: &Value,
    categories: &Index<Name>,
    rows: CallbackRows,
) -> Result<CallbackRows, Stop<Fault>>
    requires { length categories.now ≤ 200 }
    ensures { Gives (λ x. x) result (callback_row categories.now (view value.now) rows) }
{
    let (callback, key) = callback_at(alloc, value, categories)?;
    Ok(with_callback(rows, callback, key)?)
}

fn with_callback(
    rows: CallbackRows,
    callback: Callback,
    key: MethodKey,
) -> Result<CallbackRows, Memory>
    ensures { IfOk result (λ x. x ≡ record { rows = rows.rows ++ callback ∷ []; keys = rows.keys ++ key ∷ [] }) }
{
    let CallbackRows { mut rows, mut keys } = rows;
    rows.push(callback)?;
    keys.push(key)?;
    Ok(CallbackRows { rows, keys })
}

/// A callback, and what tells it from others.
#[tactic(auto, unfolding(crate::specs::Callbacks::callback_at), using(vet_base::proofs::Scripts::run_bind))]
fn callback_at(
    alloc: Global,
    value: &Value,
    categories: &Index<Name>,
) -> Result<(Callback, MethodKey), Stop<Fault>>
    requires { length categories.now ≤ 200 }
    ensures { Gives (λ x. x) result (callback_at categories.now (view value.now)) }
{
    let table = table_in(value, Section::Lists, Key::Callback)?;
    known(alloc, table, Section::Callback)?;
    let at = called_at(alloc, table)?;
    let key = at.key()?;
    let callback = callback_of(alloc, table, categories, at)?;
    Ok((callback, key))
}

/// The first keys of a row. A callback is no static method.
#[tactic(auto, unfolding(crate::specs::Callbacks::called_at), using(vet_base::proofs::Scripts::run_bind))]
fn called_at(alloc: Global, table: &Table) -> Result<Signature, Stop<Fault>>
    ensures { Gives (λ x. x) result (called_at (table_view table.now)) }
{
    let class = text_at(alloc, table, Section::Callback, Key::Class, Spelling::Class)?;
    let name = text_at(alloc, table, Section::Callback, Key::Name, Spelling::Text)?;
    let (proto, descriptor) = proto_at(alloc, table, Section::Callback)?;
    Ok(Signature {
        class,
        name,
        proto,
        descriptor,
        is_static: false,
    })
}

/// What a row says beside them.
#[tactic(auto, unfolding(crate::specs::Callbacks::callback_of), using(vet_base::proofs::Scripts::run_bind))]
fn callback_of(
    alloc: Global,
    table: &Table,
    categories: &Index<Name>,
    at: Signature,
) -> Result<Callback, Stop<Fault>>
    requires { length categories.now ≤ 200 }
    ensures { Gives (λ x. x) result (callback_of categories.now at (table_view table.now)) }
{
    let sources = sources_at(alloc, table, position_count(false, &at.proto), categories)?;
    Ok(Callback {
        class: at.class,
        name: at.name,
        proto: at.proto,
        sources: Seq::from_vec(sources),
    })
}

/// Positions, each with the category with which its value comes labelled.
#[tactic(auto, unfolding(method_fields::specs::Positions::named_at), using(vet_base::proofs::Scripts::run_bind))]
fn sources_at(
    alloc: Global,
    table: &Table,
    count: usize,
    categories: &Index<Name>,
) -> Result<Vec<(u32, u8)>, Stop<Fault>>
    requires { length categories.now ≤ 200 }
    ensures { Gives (λ v. v.items) result (named_at Section.Callback Key.Sources count categories.now
        (table_view table.now)) }
{
    let items = items_at(table, Section::Callback, Key::Sources, Shape::NamedPair)?;
    let sources = source_rows(alloc, items, count, categories)?;
    Ok(sources)
}

#[tactic(auto, unfolding(method_fields::specs::Positions::named_rows), using(form_fields::proofs::Walking::begins, form_fields::proofs::Walking::goes_on, form_fields::proofs::Walking::fails, form_fields::proofs::Walking::is_done))]
fn source_rows(
    alloc: Global,
    items: &[Value],
    count: usize,
    categories: &Index<Name>,
) -> Result<Vec<(u32, u8)>, Stop<Fault>>
    requires { length categories.now ≤ 200 }
    ensures { Gives (λ v. (v.items, tt)) result (named_rows Section.Callback Key.Sources count categories.now
        (map view items.now)) }
{
    let mut sources = Vec::new(alloc);
    for value in items {
        let source = source_row(alloc, value, count, categories)?;
        sources.push(source)?;
    }
    Ok(sources)
}

fn source_row(
    alloc: Global,
    value: &Value,
    count: usize,
    categories: &Index<Name>,
) -> Result<(u32, u8), Stop<Fault>>
    requires { length categories.now ≤ 200 }
    ensures { Gives (λ p. (p, tt)) result (named_row Section.Callback Key.Sources count categories.now (view value.now)
        tt) }
{
    let (position, number) = named_row(
        alloc,
        value,
        Section::Callback,
        Key::Sources,
        count,
        categories,
    )?;
    Ok((position, number as u8))
}
