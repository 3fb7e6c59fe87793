//! Which parameters may be objects of a class: what is above it is looked up once, for all of them.
ghost use Rattle.std.specs.Prelude.{◌≡◌, IfSome, Some, slice_get};
ghost use Rattle.app_machine.specs.Sound.{SoundApp};
ghost use Rattle.app_model.specs.Above.{is_below};
ghost use Rattle.event_index.specs.Asked.{HasAsked, IsAsked, TellsAbove, argument_type, takes_class};
ghost use Rattle.event_index.specs.Kinds.{IsColumn};
ghost use Rattle.event_index.specs.Settled.{IsBelowTable};

use crate::asked::{Asked, takes_at};
use crate::below_table::BelowTable;
use crate::bits::Bits;
use crate::kinds::Column;
use app_machine::{App, Method};
use app_model::array_below;
use std::marker::Model;
use vet_base::Name;

/// A class, the types above it where there is a row of them, and how the parameters of methods are asked
/// for. Contracts see the app, the lists and the class.
#[derive(Drop)]
pub struct Taker<'a> {
    pub(crate) table: &'a BelowTable<'a>,
    pub(crate) asked: &'a [Vec<Option<Asked<'a>>>],
    pub(crate) class: &'a Name,
    pub(crate) row: Option<&'a Bits>,
}

impl<'a> Model for Taker<'a> {
    ghost use Rattle.app_machine.specs.declared.app.App.{App};
    ghost use Rattle.app_machine.specs.declared.lists.Lists.{Lists};
    ghost use Rattle.app_machine.specs.Names.{Name};
    ghost use Rattle.std.specs.Option.{IfSome};
    ghost use Rattle.event_index.specs.Asked.{AreTables, TellsAbove};

    ghost Value = { App × Lists × Name };

    ghost view = { λ t. (t.table.now.app.now, t.table.now.listed.lists.now, t.class.now) };

    ghost invariant = { λ t. AreTables t.table.now t.asked.now
        × IfSome t.row (λ row. TellsAbove t.table.now t.class.now row.now) };
}

/// Whether the class is below the type that is asked for, by the row of those above it.
#[tactic(auto, unfolding(app_model::specs::Above::is_below), using(crate::proofs::Asking::is_class_below_object, crate::proofs::Takers::told_above))]
fn is_below_by(table: &BelowTable<'_>, class: &Name, row: &Bits, asked: Asked<'_>) -> bool
    requires sound { SoundApp table.now.app.now }
    requires table { IsBelowTable table.now }
    requires row { TellsAbove table.now class.now row.now }
    requires column { IsColumn table.now.listed.kinds asked.kind.now asked.column }
    ensures { result ≡ is_below table.now.app.now table.now.listed.lists.now class.now asked.entry.kind.now }
{
    match asked.column {
        Column::Object => true,
        Column::Number(column) => {
            row.has(column) || array_below(table.app, table.listed.lists, class, asked.kind)
        }
        Column::Unknown => table.is_below(class, asked.kind),
    }
}

/// The same where there may be no row.
fn is_below(table: &BelowTable<'_>, class: &Name, row: Option<&Bits>, asked: Asked<'_>) -> bool
    requires sound { SoundApp table.now.app.now }
    requires table { IsBelowTable table.now }
    requires row { IfSome row (λ r. TellsAbove table.now class.now r.now) }
    requires column { IsColumn table.now.listed.kinds asked.kind.now asked.column }
    ensures { result ≡ is_below table.now.app.now table.now.listed.lists.now class.now asked.entry.kind.now }
{
    match row {
        Some(row) => is_below_by(table, class, row, asked),
        None => table.is_below(class, asked.kind),
    }
}

/// How the argument register of this index of the method of this number is asked for, where it is listed.
fn asked_there<'a>(
    table: &BelowTable<'_>,
    asked: &[Vec<Option<Asked<'a>>>],
    number: u32,
    method: &Method,
    index: u32,
) -> Option<Option<Asked<'a>>>
    requires asked { HasAsked table.now.listed.kinds table.now.app.now.methods asked.now }
    requires there { slice_get table.now.app.now.methods number ≡ Some method.now }
    ensures { IfSome result (λ found. IsAsked table.now.listed.kinds
        (argument_type method.now.at.proto.params index) found) }
{
    match asked.get(number as usize) {
        None => None,
        Some(own) => own.get(index as usize).copied(),
    }
}

/// Whether the argument register may be an object of the class.
#[tactic(auto, using(crate::proofs::Takers::takes_none, crate::proofs::Takers::takes_asked))]
fn takes(
    table: &BelowTable<'_>,
    asked: &[Vec<Option<Asked<'_>>>],
    class: &Name,
    row: Option<&Bits>,
    number: u32,
    method: &Method,
    index: u32,
) -> bool
    requires sound { SoundApp table.now.app.now }
    requires table { IsBelowTable table.now }
    requires asked { HasAsked table.now.listed.kinds table.now.app.now.methods asked.now }
    requires row { IfSome row (λ r. TellsAbove table.now class.now r.now) }
    requires there { slice_get table.now.app.now.methods number ≡ Some method.now }
    ensures { result ≡ takes_class table.now.app.now table.now.listed.lists.now class.now
        (argument_type method.now.at.proto.params index) }
{
    match asked_there(table, asked, number, method, index) {
        None => takes_at(table, class, method.at.proto.params.as_slice(), index),
        Some(None) => false,
        Some(Some(asked)) => is_below(table, class, row, asked),
    }
}

impl<'a> Taker<'a> {
    /// The app itself.
    pub fn app(&self) -> &App
        ensures { result.now ≡ self.now.0 }
    {
        self.table.app
    }

    /// Whether the argument register of this index of the method of this number may be an object of the class.
    pub fn takes(&self, number: u32, method: &Method, index: u32) -> bool
        requires sound { SoundApp self.now.0 }
        requires there { slice_get self.now.0.methods number ≡ Some method.now }
        ensures { result ≡ takes_class self.now.0 self.now.1 self.now.2
            (argument_type method.now.at.proto.params index) }
    {
        takes(
            self.table, self.asked, self.class, self.row, number, method, index,
        )
    }
}
