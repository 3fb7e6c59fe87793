//! Small facts that show that the definitions of what is read and listed mean what they should:
//! tables of forms, rows of the lists, classes and code of files and how they are linked, generated
//! apps. Each is a theorem over the definitions alone, so that a slip in a definition shows.
#![tactic(auto)]

ghost use Rattle.dex_writer.specs.declared.tables.Tables.{Tables};
ghost use Rattle.form_witness.specs.Called.{LinksTell};
ghost use Rattle.form_witness.specs.Codes.{CodesTell};
ghost use Rattle.form_witness.specs.Fields.{FieldsTell, RowsTell};
ghost use Rattle.form_witness.specs.Listed.{ListingsTell};
ghost use Rattle.form_witness.specs.Made.{MadeAppsTell};

/// What tables of forms come to: their shapes, tokens, and keys that they do not have.
pub fn the_fields_tell()
    ensures { FieldsTell }
{}

/// What a row of the lists says of a method's result and of its positions.
pub fn the_rows_tell()
    ensures { RowsTell }
{}

/// A class that is defined twice is refused, and no more is spent than is left; classes in a circle have
/// a least one, two files and many classes are an app, and calls have the registers that they take.
pub fn the_listings_tell()
    ensures { ListingsTell × LinksTell }
{}

/// Two generated apps, whole; how each file begins; and what the forms beside it say.
pub fn the_made_apps_tell()
    ensures { MadeAppsTell }
{}

/// What stands in a file of a call and of a try.
pub fn the_codes_tell()
    ensures { (t : Tables) → CodesTell t }
{}
