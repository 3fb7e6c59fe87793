//! The layouts.
ghost use Rattle.std.specs.Prelude.{◌≡◌, ◌≢◌, IfOk, IfErr, map};
ghost use Rattle.form_fields.specs.Form.{IsForm, FirstFormFault};
ghost use Rattle.office_forms.specs.Layouts.{layouts_form, layouts_of, layout_row, seen_in};
ghost use Rattle.office_forms.specs.Sound.{SoundLayouts};
ghost use Rattle.toml.specs.View.{table_view, view};
ghost use Rattle.vet_base.specs.Script.{Gives};

use app_machine::Layouts;
use form_fields::{
    Fault, FormFault, Index, Key, Section, Spelling, known, names_once, read_tree, table_in,
    tables_at, text_at, texts_at, told_of, with_new,
};
use std::alloc::Global;
use toml::{Table, Value};
use vet_base::{Name, Seq, Stop};

/// Reads layouts: at most 4,096 tables `[[layout]]`, each with a `name` that stands once, the
/// list `clicks` of method names and the list `classes`, of at most 4,096 texts each.
#[tactic(auto, using(form_fields::proofs::Forms::is_form, form_fields::proofs::Forms::is_fault, form_fields::proofs::Forms::is_unread, crate::proofs::FormsSound::sound_layouts))]
pub fn read_layouts(alloc: Global, text: &[u8]) -> Result<Layouts, FormFault>
    ensures ok { IfOk result (λ d. IsForm layouts_form text.now d) }
    ensures sound { IfOk result SoundLayouts }
    ensures err { IfErr result (λ e. e ≢ FormFault.Memory → FirstFormFault layouts_form text.now e) }
{
    let tree = match read_tree(alloc, text) {
        Ok(tree) => tree,
        Err(stop) => return Err(told_of(alloc, stop)),
    };
    match layouts_in(alloc, &tree) {
        Ok(layouts) => Ok(layouts),
        Err(stop) => Err(told_of(alloc, stop)),
    }
}

#[tactic(auto, unfolding(crate::specs::Layouts::layouts_form), using(vet_base::proofs::Scripts::run_bind))]
fn layouts_in(alloc: Global, tree: &Table) -> Result<Layouts, Stop<Fault>>
    ensures { Gives (λ d. d) result (layouts_form (table_view tree.now)) }
{
    known(alloc, tree, Section::Layouts)?;
    let tables = tables_at(tree, Section::Layouts, Key::Layout, 4096)?;
    let (names, found) = layouts_of(alloc, tables)?;
    names_once(alloc, &names)?;
    Ok(Layouts {
        clicks: Seq::from_vec(found.clicks.into_keys()),
        classes: Seq::from_vec(found.classes),
    })
}

/// What the layouts so far have: their clicks, each once, and their classes.
#[derive(Drop)]
struct Found {
    clicks: Index<Name>,
    classes: Vec<Name>,
}

#[tactic(auto, unfolding(crate::specs::Layouts::layouts_of), using(form_fields::proofs::Walking::begins, form_fields::proofs::Walking::goes_on, form_fields::proofs::Walking::fails, form_fields::proofs::Walking::is_done))]
fn layouts_of(alloc: Global, layouts: &[Value]) -> Result<(Vec<Name>, Found), Stop<Fault>>
    ensures { Gives (λ x. (x.0.items, seen_in x.1)) result (layouts_of (map view layouts.now)) }
{
    let mut names = Vec::new(alloc);
    let mut found = Found {
        clicks: Index::new(alloc),
        classes: Vec::new(alloc),
    };
    for value in layouts {
        let (name, more) = layout_of(alloc, value, found)?;
        names.push(name)?;
        found = more;
    }
    Ok((names, found))
}

/// The name of a layout, and what is found with it.
#[tactic(auto, unfolding(crate::specs::Layouts::layout_row), using(vet_base::proofs::Scripts::run_bind))]
fn layout_of(alloc: Global, value: &Value, found: Found) -> Result<(Name, Found), Stop<Fault>>
    ensures { Gives (λ x. (x.0, seen_in x.1)) result (layout_row (view value.now) (seen_in found)) }
{
    let table = table_in(value, Section::Layouts, Key::Layout)?;
    known(alloc, table, Section::Layout)?;
    let name = text_at(alloc, table, Section::Layout, Key::Name, Spelling::Text)?;
    let clicks = texts_at(
        alloc,
        table,
        Section::Layout,
        Key::Clicks,
        Spelling::Text,
        4096,
    )?;
    let mut classes = texts_at(
        alloc,
        table,
        Section::Layout,
        Key::Classes,
        Spelling::Class,
        4096,
    )?;
    let mut all_classes = found.classes;
    all_classes.append(&mut classes)?;
    let found = Found {
        clicks: with_new(found.clicks, &clicks)?,
        classes: all_classes,
    };
    Ok((name, found))
}
