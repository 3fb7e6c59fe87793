//! The lists of the office: categories, classes, shared objects, methods and callbacks; what is said of a device, and
//! how large apps are judged.
ghost use Rattle.std.specs.Prelude.{◌≡◌, ◌≢◌, ◌≤◌, ◌+◌, ◌++◌, ◌∷◌, [], IsTrue, IfOk, IfErr, length, map};
ghost use Rattle.form_fields.specs.Form.{IsForm, FirstFormFault};
ghost use Rattle.store_lists.specs.Lists.{are_categories, categories_at, shared_object, shared_row};
ghost use Rattle.store_lists.specs.Lists.{shared_of, rows_of, rows_once, all_rows, arrays_at, lists_form};
ghost use Rattle.app_machine.specs.SoundLists.{SoundLists};
ghost use Rattle.store_lists.specs.Spelled.{SpelledLists, SoundDevice};
ghost use Rattle.toml.specs.View.{table_view, view};
ghost use Rattle.vet_base.specs.Script.{Gives};

use crate::callbacks::{CallbackRows, callbacks_of};
use crate::classes::{classes_of, with_name};
use crate::device::{DeviceKeys, StaticRows, device_at, statics_of};
use crate::large::{Large, large_at};
use crate::methods::{Listed, MethodRows, methods_of};
use app_machine::{LibClass, Lists};
use device_lists::DeviceLists;
use form_fields::{
    Fault, FormFault, Index, Key, Section, Spelling, known, names_once, number_at, read_tree,
    table_in, tables_at, text_at, texts_at, told_of, with_new,
};
use method_fields::keys_once;
use std::alloc::Global;
use toml::{Table, Value};
use vet_base::{Memory, Name, Seq, Stop};

/// What the lists say.
#[derive(Drop)]
pub struct StoreLists {
    /// Of the library: what the machine is told.
    pub lists: Lists,
    /// Of a device.
    pub device: DeviceLists,
    /// How an app is judged of which more rows follow than the lists allow; as too large, where nothing is said.
    pub large: Option<Large>,
}

/// Reads the lists of the office: the number `rows` from 1 to 4,000,000, the list `categories` of
/// 1 to 200 distinct texts, and at most 65,536 tables each of `[[class]]`, `[[shared]]`,
/// `[[method]]` and `[[callback]]`.
///
/// A class has a `name`, `parents` whose rows stand earlier, and a `default` (`blank`, `joined` or
/// `mixed`); at most 64 classes, itself included, are above it. A shared object has a `name` and a
/// `class`. A method has a listed `class`, a `name` and a `proto`, and says by `static`, `result`,
/// `from`, `shared`, `puts`, `stores`, `copies`, `source`, `sink`, `positions` and `reflective` what a
/// call does. A callback has a `class`, a `name`, a `proto` and `sources`. Positions count arguments, a
/// wide one once, the receiver being 0. No class, shared name, method row or callback row stands twice.
/// At most 65,536 tables `[[static]]` each have a `class`, a `name` and a `type`, no two the same, and
/// may have a `source`.
///
/// Of a device they say by `strict`, `false` where it is missing, and by the lists `platform` and
/// `bundled` of at most 4,096 beginnings of class descriptors, none twice and none in both. Of large apps they may say
/// `large`, whose one word is `cells`.
#[tactic(auto, using(form_fields::proofs::Forms::is_form, form_fields::proofs::Forms::is_fault, form_fields::proofs::Forms::is_unread))]
pub fn read_lists(alloc: Global, text: &[u8]) -> Result<StoreLists, FormFault>
    ensures ok { IfOk result (λ d. IsForm lists_form text.now d) }
    ensures sound { IfOk result (λ d. SoundLists d.lists) }
    ensures spelled { IfOk result (λ d. SpelledLists d.lists) }
    ensures device { IfOk result (λ d. SoundDevice d.device) }
    ensures err { IfErr result (λ e. e ≢ FormFault.Memory → FirstFormFault lists_form text.now e) }
{
    let tree = match read_tree(alloc, text) {
        Ok(tree) => tree,
        Err(stop) => return Err(told_of(alloc, stop)),
    };
    match lists_in(alloc, &tree) {
        Ok(lists) => Ok(lists),
        Err(stop) => Err(told_of(alloc, stop)),
    }
}

#[tactic(auto, unfolding(crate::specs::Lists::lists_form), using(vet_base::proofs::Scripts::run_bind))]
fn lists_in(alloc: Global, tree: &Table) -> Result<StoreLists, Stop<Fault>>
    ensures { Gives (λ d. d) result (lists_form (table_view tree.now)) }
{
    known(alloc, tree, Section::Lists)?;
    let most = number_at(tree, Section::Lists, Key::Rows, 1, 4_000_000)?;
    let categories = categories_at(alloc, tree)?;
    let ((classes, shared), (methods, callbacks)) = arrays_at(tree)?;
    let (keys, static_tables) = device_at(alloc, tree)?;
    let large = large_at(tree)?;
    let AllRows { rows, statics } = all_rows(
        alloc,
        categories,
        classes,
        shared,
        methods,
        callbacks,
        static_tables,
    )?;
    Ok(StoreLists {
        lists: lists_of(most, rows, statics),
        device: device_of(keys),
        large,
    })
}

/// The rows of all arrays.
#[derive(Drop)]
pub struct AllRows {
    rows: Rows,
    statics: StaticRows,
}

/// The rows of all arrays, of which none stands twice.
#[tactic(auto, unfolding(crate::specs::Lists::all_rows), using(vet_base::proofs::Scripts::run_bind))]
fn all_rows(
    alloc: Global,
    categories: Index<Name>,
    class_tables: &[Value],
    shared_tables: &[Value],
    method_tables: &[Value],
    callback_tables: &[Value],
    static_tables: &[Value],
) -> Result<AllRows, Stop<Fault>>
    requires categories { length categories ≤ 200 }
    requires shared { length shared_tables.now ≤ 65536 }
    ensures { Gives (λ x. x) result (all_rows categories (
      (map view class_tables.now, map view shared_tables.now),
      (map view method_tables.now, map view callback_tables.now),
    ) (map view static_tables.now)) }
{
    let rows = rows_of(
        alloc,
        categories,
        class_tables,
        shared_tables,
        method_tables,
        callback_tables,
    )?;
    let statics = statics_of(alloc, static_tables, &rows.listed.categories)?;
    rows_once(alloc, &rows, &statics)?;
    Ok(AllRows { rows, statics })
}

/// What these say of a device.
fn device_of(keys: DeviceKeys) -> DeviceLists
    ensures { result ≡ record { strict = keys.strict; platform = keys.platform; bundled = keys.bundled } }
{
    let DeviceKeys {
        strict,
        platform,
        bundled,
    } = keys;
    DeviceLists {
        strict,
        platform,
        bundled,
    }
}

/// The lists of these rows.
fn lists_of(most: u32, rows: Rows, statics: StaticRows) -> Lists
    ensures { result ≡ record {
      rows = most;
      categories = rows.listed.categories;
      classes = rows.classes;
      shared = rows.shared;
      methods = rows.methods.rows;
      callbacks = rows.callbacks.rows;
      statics = statics.rows;
    } }
{
    let Rows {
        listed,
        classes,
        shared,
        methods,
        callbacks,
    } = rows;
    Lists {
        rows: most,
        categories: Seq::from_vec(listed.categories.into_keys()),
        classes,
        shared,
        methods: methods.rows,
        callbacks: callbacks.rows,
        statics: statics.rows,
    }
}

/// The tables of two arrays.
type Two<'a> = (&'a [Value], &'a [Value]);

/// The tables of the four arrays: of classes and of shared objects, of methods and of callbacks.
#[tactic(auto, unfolding(crate::specs::Lists::arrays_at), using(vet_base::proofs::Scripts::run_bind))]
fn arrays_at<'a>(tree: &'a Table) -> Result<(Two<'a>, Two<'a>), Stop<Fault>>
    ensures value { Gives
        (λ x. ((map view x.0.0.now, map view x.0.1.now), (map view x.1.0.now, map view x.1.1.now)))
        result
        (arrays_at (table_view tree.now)) }
    ensures few { IfOk result (λ x. length x.0.1.now ≤ 65536) }
{
    let classes = tables_at(tree, Section::Lists, Key::Class, 65536)?;
    let shared = tables_at(tree, Section::Lists, Key::Shared, 65536)?;
    let methods = tables_at(tree, Section::Lists, Key::Method, 65536)?;
    let callbacks = tables_at(tree, Section::Lists, Key::Callback, 65536)?;
    Ok(((classes, shared), (methods, callbacks)))
}

/// 1 to 200 categories, no two the same.
#[tactic(auto, unfolding(crate::specs::Lists::categories_at), using(vet_base::proofs::Scripts::run_bind))]
fn categories_at(alloc: Global, tree: &Table) -> Result<Index<Name>, Stop<Fault>>
    ensures value { Gives (λ x. x) result (categories_at (table_view tree.now)) }
    ensures few { IfOk result (λ x. length x ≤ 200) }
{
    let names = texts_at(
        alloc,
        tree,
        Section::Lists,
        Key::Categories,
        Spelling::Category,
        200,
    )?;
    let distinct = with_new(Index::new(alloc), &names)?;
    if !are_categories(&names, &distinct) {
        return Err(Stop::Fault(Fault::Range(Section::Lists, Key::Categories)));
    }
    Ok(distinct)
}

/// Whether there is one category at least, and none of them stands twice.
#[tactic(auto, unfolding(crate::specs::Lists::are_categories))]
fn are_categories(names: &[Name], distinct: &Index<Name>) -> bool
    ensures value { result ≡ are_categories names.now distinct.now }
    ensures same { IsTrue result → length distinct.now ≡ length names.now }
{
    1 <= names.len() && distinct.len() == names.len()
}

/// The name and the class of a shared object.
#[derive(Drop)]
pub struct SharedObject {
    name: Name,
    class: Name,
}

/// The shared objects so far: the name and the class of each, and the names.
#[derive(Drop)]
pub struct SharedRows {
    rows: Seq<(Name, Name)>,
    names: Index<Name>,
}

#[tactic(auto, unfolding(crate::specs::Lists::shared_of), using(form_fields::proofs::Eaching::eaching_begins, form_fields::proofs::Eaching::eaching_goes_on, form_fields::proofs::Eaching::eaching_fails, form_fields::proofs::Eaching::eaching_is_done))]
fn shared_of(alloc: Global, tables: &[Value]) -> Result<SharedRows, Stop<Fault>>
    ensures value { Gives (λ x. x) result (shared_of (map view tables.now)) }
    ensures few { IfOk result (λ x. length x.names ≤ length tables.now) }
{
    let mut shared = SharedRows {
        rows: Seq::new(alloc),
        names: Index::new(alloc),
    };
    for value in tables {
        shared = shared_row(alloc, value, shared)?;
    }
    Ok(shared)
}

/// One shared object more.
#[tactic(auto, unfolding(crate::specs::Lists::shared_row), using(vet_base::proofs::Scripts::run_bind))]
fn shared_row(alloc: Global, value: &Value, shared: SharedRows) -> Result<SharedRows, Stop<Fault>>
    ensures value { Gives (λ x. x) result (shared_row (view value.now) shared) }
    ensures one { IfOk result (λ x. length x.names ≡ length shared.names + 1) }
{
    let object = shared_object(alloc, value)?;
    Ok(with_shared(shared, object)?)
}

/// The name and the class of a shared object.
#[tactic(auto, unfolding(crate::specs::Lists::shared_object), using(vet_base::proofs::Scripts::run_bind))]
fn shared_object(alloc: Global, value: &Value) -> Result<SharedObject, Stop<Fault>>
    ensures { Gives (λ x. x) result (shared_object (view value.now)) }
{
    let table = table_in(value, Section::Lists, Key::Shared)?;
    known(alloc, table, Section::Shared)?;
    let name = text_at(alloc, table, Section::Shared, Key::Name, Spelling::Text)?;
    let class = text_at(alloc, table, Section::Shared, Key::Class, Spelling::Class)?;
    Ok(SharedObject { name, class })
}

fn with_shared(shared: SharedRows, object: SharedObject) -> Result<SharedRows, Memory>
    ensures { IfOk result (λ x. x ≡ record {
      rows = shared.rows ++ (object.name, object.class) ∷ [];
      names = shared.names ++ object.name ∷ [];
    }) }
{
    let SharedRows { mut rows, names } = shared;
    let names = with_name(names, &object.name)?;
    rows.push((object.name, object.class))?;
    Ok(SharedRows { rows, names })
}

/// The rows of the four arrays, and what a method row may name.
#[derive(Drop)]
pub struct Rows {
    listed: Listed,
    classes: Seq<LibClass>,
    shared: Seq<(Name, Name)>,
    methods: MethodRows,
    callbacks: CallbackRows,
}

#[tactic(auto, unfolding(crate::specs::Lists::rows_of), using(vet_base::proofs::Scripts::run_bind))]
fn rows_of(
    alloc: Global,
    categories: Index<Name>,
    class_tables: &[Value],
    shared_tables: &[Value],
    method_tables: &[Value],
    callback_tables: &[Value],
) -> Result<Rows, Stop<Fault>>
    requires categories { length categories ≤ 200 }
    requires shared { length shared_tables.now ≤ 65536 }
    ensures value { Gives (λ x. x) result (rows_of categories (map view class_tables.now) (map view shared_tables.now)
        (map view method_tables.now) (map view callback_tables.now)) }
    ensures few { IfOk result (λ x. length x.listed.categories ≤ 200) }
{
    let (class_names, classes) = classes_of(alloc, class_tables)?.into_parts();
    let shared = shared_of(alloc, shared_tables)?;
    let listed = Listed {
        categories,
        classes: class_names,
        shared: shared.names,
    };
    let methods = methods_of(alloc, method_tables, &listed)?;
    let callbacks = callbacks_of(alloc, callback_tables, &listed.categories)?;
    Ok(Rows {
        listed,
        classes: Seq::from_vec(classes),
        shared: shared.rows,
        methods,
        callbacks,
    })
}

/// No class, shared name, method row, callback row or static field stands twice.
#[tactic(auto, unfolding(crate::specs::Lists::rows_once), using(vet_base::proofs::Scripts::run_bind))]
fn rows_once(alloc: Global, rows: &Rows, statics: &StaticRows) -> Result<(), Stop<Fault>>
    ensures { Gives (λ x. x) result (rows_once rows.now statics.now) }
{
    names_once(alloc, rows.listed.classes.as_keys())?;
    names_once(alloc, rows.listed.shared.as_keys())?;
    keys_once(alloc, rows.methods.keys.as_slice())?;
    keys_once(alloc, rows.callbacks.keys.as_slice())?;
    keys_once(alloc, statics.keys.as_slice())?;
    Ok(())
}
