//! The rows that are in the app by the second set of rules.
ghost use Rattle.std.specs.Prelude.{◌≡◌, ◌↔◌, IsTrue};
ghost use Rattle.app_machine.specs.Sound.{SoundApp};
ghost use Rattle.cell_rules.specs.InApp.{CellInApp};
ghost use Rattle.app_rows.specs.CellTests.{are_cell_fields_in, is_cell_field_in, is_cell_site_in};

use crate::rows::is_field_in;
use crate::sites::{is_made_at, is_site_in};
use app_model::events_are_exact;
use event_index::EventIndex;
use fact_rows::{Field, Row, Site};

/// An object may be made in whatever context.
fn is_cell_site_in(index: &EventIndex<'_>, site: Site) -> bool
    requires { SoundApp index.now.0 }
    ensures { result ≡ is_cell_site_in index.now.0 index.now.1 site }
{
    match site {
        Site::Made(method, pc) => is_made_at(index.app(), method, pc),
        _ => is_site_in(index, site),
    }
}

/// Labels are those of values, and there are no paths.
fn is_cell_field_in(index: &EventIndex<'_>, field: Field) -> bool
    requires { SoundApp index.now.0 }
    ensures { result ≡ is_cell_field_in index.now.0 index.now.1 field }
{
    match field {
        Field::Site(site) => is_cell_site_in(index, site),
        Field::Path(_) => false,
        Field::Label(label) => usize::from(label) < index.lists().categories.len(),
        _ => is_field_in(index, field),
    }
}

fn are_cell_fields_in(index: &EventIndex<'_>, fields: &[Field]) -> bool
    requires { SoundApp index.now.0 }
    ensures { result ≡ are_cell_fields_in index.now.0 index.now.1 fields.now }
{
    fields.iter().all(|field| is_cell_field_in(index, *field))
}

/// Whether the row names only what the app and the lists have, as the second set of rules names it, by their index. It
/// takes no memory.
pub fn is_in_app_by_cells(index: &EventIndex<'_>, row: &Row) -> bool
    requires { SoundApp index.now.0 }
    ensures { IsTrue result ↔ CellInApp index.now.0 index.now.1 row.now }
{
    events_are_exact();
    are_cell_fields_in(index, row.parts().fields.as_slice())
}
