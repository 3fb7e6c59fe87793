ghost use Rattle.made_apps.specs.Law.{MadeListingsHaveFiles};

/// Each generated listing is within the limits of a DEX file, and `make_dex` has no fault for it.
pub fn made_listings_have_files()
    ensures { MadeListingsHaveFiles }
{}
