//! Which classes are below which types, by a bit.
ghost use Rattle.std.specs.Prelude.{◌≡◌, ◌<◌, IfOk, IfSome, None, Some, length, slice_get};
ghost use Rattle.app_machine.specs.Lookups.{class_named};
ghost use Rattle.app_machine.specs.Sound.{SoundApp};
ghost use Rattle.app_model.specs.Above.{is_below, is_class_below};
ghost use Rattle.event_index.specs.Asked.{TellsAbove};
ghost use Rattle.event_index.specs.Kinds.{IsColumn};
ghost use Rattle.event_index.specs.Settled.{IsBelowTable};

use crate::bits::Bits;
use crate::kinds::Column;
use crate::listed::Listed;
use crate::names::number_of;
use crate::settling::settled_rows;
use app_machine::{App, Class, Lists};
use app_model::{array_below, class_below};
use std::alloc::Global;
use vet_base::{Memory, Name};

/// For each class of the app, and each of the lists, a row of the types above it.
#[derive(Drop)]
pub struct BelowTable<'a> {
    pub app: &'a App,
    pub listed: Listed<'a>,
    pub rows: Vec<Option<Bits>>,
}

impl<'a> BelowTable<'a> {
    /// The table of the app by the lists, whose rows are made in this order.
    pub fn of(
        alloc: Global,
        app: &'a App,
        lists: &'a Lists,
        order: &[usize],
    ) -> Result<BelowTable<'a>, Memory>
        requires { SoundApp app.now }
        ensures app { IfOk result (λ table. table.app.now ≡ app.now) }
        ensures lists { IfOk result (λ table. table.listed.lists.now ≡ lists.now) }
        ensures table { IfOk result (λ table. IsBelowTable table) }
    {
        let listed = Listed::of(alloc, lists)?;
        let rows = settled_rows(alloc, app, &listed, order)?;
        Ok(BelowTable { app, listed, rows })
    }

    /// Whether the class of the app of this number is below the type as a class or interface. The
    /// type is asked for so.
    #[tactic(auto, using(crate::proofs::Asking::is_class_below_object, crate::proofs::Asking::is_class_below_by_row))]
    fn is_numbered_below(&self, number: usize, class: &Class, column: Column, kind: &Name) -> bool
        requires sound { SoundApp self.now.app.now }
        requires table { IsBelowTable self.now }
        requires there { slice_get self.now.app.now.classes number ≡ Some class.now }
        requires column { IsColumn self.now.listed.kinds kind.now column }
        ensures { result ≡ is_class_below self.now.app.now self.now.listed.lists.now class.now.name kind.now }
    {
        match column {
            Column::Object => true,
            Column::Number(column) => match self.rows.get(number) {
                Some(Some(row)) => row.has(column),
                _ => class_below(self.app, self.listed.lists, &class.name, kind),
            },
            Column::Unknown => class_below(self.app, self.listed.lists, &class.name, kind),
        }
    }

    /// The same of a class that is not of the app.
    #[tactic(auto, using(crate::proofs::Asking::is_class_below_object, crate::proofs::Asking::is_class_below_listed, crate::proofs::Asking::is_class_below_unlisted))]
    fn is_outside_below(&self, class: &Name, column: Column, kind: &Name) -> bool
        requires sound { SoundApp self.now.app.now }
        requires table { IsBelowTable self.now }
        requires outside { class_named self.now.app.now class.now ≡ None }
        requires column { IsColumn self.now.listed.kinds kind.now column }
        ensures { result ≡ is_class_below self.now.app.now self.now.listed.lists.now class.now kind.now }
    {
        match column {
            Column::Object => true,
            Column::Number(column) => match self.listed.row(class.as_bytes()) {
                Some(row) => row.has(column),
                None => class == kind,
            },
            Column::Unknown => class_below(self.app, self.listed.lists, class, kind),
        }
    }

    /// Whether the class of the app of this number is below the type, which is asked for so.
    #[tactic(auto, unfolding(app_model::specs::Above::is_below))]
    pub fn is_class_below(&self, number: usize, class: &Class, column: Column, kind: &Name) -> bool
        requires sound { SoundApp self.now.app.now }
        requires table { IsBelowTable self.now }
        requires there { slice_get self.now.app.now.classes number ≡ Some class.now }
        requires column { IsColumn self.now.listed.kinds kind.now column }
        ensures { result ≡ is_below self.now.app.now self.now.listed.lists.now class.now.name kind.now }
    {
        self.is_numbered_below(number, class, column, kind)
            || array_below(self.app, self.listed.lists, &class.name, kind)
    }

    /// The same of a class that is not of the app, and of an array.
    #[tactic(auto, unfolding(app_model::specs::Above::is_below))]
    fn is_library_class_below(&self, class: &Name, column: Column, kind: &Name) -> bool
        requires sound { SoundApp self.now.app.now }
        requires table { IsBelowTable self.now }
        requires outside { class_named self.now.app.now class.now ≡ None }
        requires column { IsColumn self.now.listed.kinds kind.now column }
        ensures { result ≡ is_below self.now.app.now self.now.listed.lists.now class.now kind.now }
    {
        self.is_outside_below(class, column, kind)
            || array_below(self.app, self.listed.lists, class, kind)
    }

    /// The row of the class of the app of this number.
    fn row_at(&self, number: usize, class: &Name) -> Option<&Bits>
        requires table { IsBelowTable self.now }
        requires there { slice_get self.now.app.now.classes number ≡ class_named self.now.app.now class.now }
        requires within { number < length self.now.app.now.classes }
        ensures { IfSome result (λ row. TellsAbove self.now class.now row.now) }
    {
        match self.rows.get(number) {
            Some(Some(row)) => Some(row),
            _ => None,
        }
    }

    /// The row of the types above the class, where there is one.
    #[tactic(auto, using(crate::proofs::Takers::listed_tells))]
    pub fn row(&self, class: &Name) -> Option<&Bits>
        requires sound { SoundApp self.now.app.now }
        requires table { IsBelowTable self.now }
        ensures { IfSome result (λ row. TellsAbove self.now class.now row.now) }
    {
        match number_of(self.app, class.as_bytes()) {
            Some(number) => self.row_at(number, class),
            None => self.listed.row(class.as_bytes()),
        }
    }

    /// Whether a value of the class may stand where the type `kind` is asked for.
    #[tactic(auto, using(crate::proofs::Asking::found_class))]
    pub fn is_below(&self, class: &Name, kind: &Name) -> bool
        requires sound { SoundApp self.now.app.now }
        requires table { IsBelowTable self.now }
        ensures { result ≡ is_below self.now.app.now self.now.listed.lists.now class.now kind.now }
    {
        let column = self.listed.kinds.column(kind.as_bytes());
        match number_of(self.app, class.as_bytes()) {
            Some(number) => {
                let found = self.app.classes.at(number);
                self.is_class_below(number, found, column, kind)
            }
            None => self.is_library_class_below(class, column, kind),
        }
    }
}
