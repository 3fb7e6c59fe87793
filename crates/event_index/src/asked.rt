//! How the parameters of each method of the app are asked for: for each method its argument registers are listed once.
ghost use Rattle.std.specs.Prelude.{◌≡◌, IfOk};
ghost use Rattle.std.specs.Option.{option_copied};
ghost use Rattle.event_index.specs.Asked.{AreAsked, HasAsked, IsAsked, argument_type, takes_class};
ghost use Rattle.app_machine.specs.Sound.{SoundApp};
ghost use Rattle.event_index.specs.Settled.{IsBelowTable};

use crate::below_table::BelowTable;
use crate::kinds::{Column, Kinds};
use app_machine::Method;
use app_parts::{is_reference, parameter_type, position_at};
use std::alloc::Global;
use vet_base::{Memory, Name};

/// How many argument registers of a method are listed at the most. Those beyond are asked for by name.
const MOST: u32 = 8;

/// A type that an argument register takes, and how it is asked for.
#[derive(Clone, Copy, Drop)]
pub struct Asked<'a> {
    pub kind: &'a Name,
    pub column: Column,
}

/// The type of the position of the argument register, where it has one.
fn argument_type(params: &[Name], index: u32) -> Option<&Name>
    ensures { option_copied result ≡ argument_type params.now index }
{
    match position_at(params, index) {
        None => None,
        Some(position) => parameter_type(params, position),
    }
}

/// How the type is asked for, where it is one of objects.
fn asked_by<'a>(kinds: &Kinds<'_>, kind: Option<&'a Name>) -> Option<Asked<'a>>
    ensures { IsAsked kinds.now (option_copied kind.entry) result }
{
    match kind {
        None => None,
        Some(kind) => {
            if is_reference(kind) {
                let column = kinds.column(kind.as_bytes());
                Some(Asked { kind, column })
            } else {
                None
            }
        }
    }
}

/// How the argument register of this index is asked for.
fn asked_at<'a>(kinds: &Kinds<'_>, params: &'a [Name], index: u32) -> Option<Asked<'a>>
    ensures { IsAsked kinds.now (argument_type params.now index) result }
{
    asked_by(kinds, argument_type(params, index))
}

/// How the first so many argument registers are asked for.
fn asked_of<'a>(
    alloc: Global,
    kinds: &Kinds<'_>,
    params: &'a [Name],
    count: u32,
) -> Result<Vec<Option<Asked<'a>>>, Memory>
    ensures { IfOk result (λ own. AreAsked kinds.now params.now own.items) }
{
    let mut own = Vec::new(alloc);
    for index in 0..count {
        own.push(asked_at(kinds, params, index))?;
    }
    Ok(own)
}

/// How those of the method are.
fn asked_by_method<'a>(
    alloc: Global,
    kinds: &Kinds<'_>,
    method: &'a Method,
) -> Result<Vec<Option<Asked<'a>>>, Memory>
    ensures { IfOk result (λ own. AreAsked kinds.now method.now.at.proto.params own.items) }
{
    let params = method.at.proto.params.as_slice();
    asked_of(alloc, kinds, params, method.ins.min(MOST))
}

/// How the argument registers of each method are asked for.
pub fn asked_by_all<'a>(
    alloc: Global,
    kinds: &Kinds<'_>,
    methods: &'a [Method],
) -> Result<Vec<Vec<Option<Asked<'a>>>>, Memory>
    ensures { IfOk result (λ all. HasAsked kinds.now methods.now all.items) }
{
    let mut all = Vec::new(alloc);
    for method in methods {
        let own = asked_by_method(alloc, kinds, method)?;
        all.push(own)?;
    }
    Ok(all)
}

/// Whether an argument register of the type may be an object of the class, asked by their names.
fn takes_by_name(table: &BelowTable<'_>, class: &Name, kind: Option<&Name>) -> bool
    requires sound { SoundApp table.now.app.now }
    requires table { IsBelowTable table.now }
    ensures { result ≡ takes_class table.now.app.now table.now.listed.lists.now class.now (option_copied kind.entry) }
{
    match kind {
        None => false,
        Some(kind) => is_reference(kind) && table.is_below(class, kind),
    }
}

/// Whether the argument register of this index of a method with these parameters may.
pub fn takes_at(table: &BelowTable<'_>, class: &Name, params: &[Name], index: u32) -> bool
    requires sound { SoundApp table.now.app.now }
    requires table { IsBelowTable table.now }
    ensures { result ≡ takes_class table.now.app.now table.now.listed.lists.now class.now (argument_type params.now index) }
{
    takes_by_name(table, class, argument_type(params, index))
}
