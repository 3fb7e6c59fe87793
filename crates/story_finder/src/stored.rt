//! The rows that a solver stored, as places: each is found by its hash.
ghost use Rattle.std.specs.Prelude.{◌≡◌};
ghost use Rattle.vet_base.specs.Apart.{Apart};
ghost use Rattle.flow_trail.specs.Placing.{place_in};
ghost use Rattle.story_finder.specs.Stored.{finds_apart};

use fact_rows::Row;
use flow_trail::Places;
use hashed_rows::HashedRows;
use std::marker::Model;

/// Rows at the places at which they came.
#[derive(Drop)]
pub struct Stored<'a> {
    rows: &'a HashedRows,
}

impl<'a> Model for Stored<'a> {
    ghost use Rattle.std.specs.Prelude.{List};
    ghost use Rattle.fact_rows.specs.declared.row.Row.{Row};

    ghost Value = { List Row };

    ghost view = { λ s. s.rows.now };
}

impl<'a> Stored<'a> {
    pub fn new(rows: &'a HashedRows) -> Stored<'a>
        ensures { result ≡ rows.now }
    {
        Stored { rows }
    }
}

/// The place at which the row came.
fn place_by_hash(rows: &HashedRows, row: &Row) -> Option<usize>
    ensures { result ≡ place_in rows.now row.now }
{
    rows.place_of(row)
}

impl<'a> Places for Stored<'a> {
    ghost ready = { λ s. Apart s };

    ghost listed = { λ s. s };

    fn count(&self) -> usize {
        self.rows.len()
    }

    fn row_at(&self, place: usize) -> Option<Row> {
        self.rows.at(place)
    }

    fn place_of(&self, row: &Row) -> Option<usize> {
        place_by_hash(self.rows, row)
    }

    ghost finds = { λ s apart row at. finds_apart s apart row at };
}
