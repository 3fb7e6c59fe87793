ghost use Rattle.dex_reader.specs.Dex.{OneDexOrFault};

/// For all bytes exactly one of the two: one DEX file stands
/// in them, or one fault is that of the first test that fails.
pub fn one_dex_or_fault()
    ensures { OneDexOrFault }
{}
