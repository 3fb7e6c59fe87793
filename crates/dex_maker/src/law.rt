ghost use Rattle.dex_maker.specs.Made.{TablesAreShort};

/// Where there is a file of a listing, none of its tables has more rows than two bytes can name.
pub fn tables_are_short()
    ensures { TablesAreShort }
{}
