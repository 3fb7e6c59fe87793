//! Which premises of a rule are known beside the use.
ghost use Rattle.std.specs.Prelude.{◌≡◌};
ghost use Rattle.library_heap_rules.specs.LibraryGiven.{cell_pin, no_pins, object_pin, value_pin};

use fact_rows::Row;
use library_ground::Pins;

/// None is known.
pub fn no_pins() -> Pins
    ensures { result ≡ no_pins }
{
    Pins {
        value: None,
        object: None,
        cell: None,
    }
}

/// A value is known.
pub fn value_pin(row: Row) -> Pins
    ensures { result ≡ value_pin row }
{
    Pins {
        value: Some(row),
        object: None,
        cell: None,
    }
}

/// An object that takes a value in is known.
pub fn object_pin(row: Row) -> Pins
    ensures { result ≡ object_pin row }
{
    Pins {
        value: None,
        object: Some(row),
        cell: None,
    }
}

/// An object is known, with what is said of it.
pub fn cell_pin(row: Row, said: Row) -> Pins
    ensures { result ≡ cell_pin row said }
{
    Pins {
        value: Some(row),
        object: None,
        cell: Some(said),
    }
}
