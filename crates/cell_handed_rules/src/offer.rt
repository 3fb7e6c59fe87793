//! What the library may have.
ghost use Rattle.std.specs.Prelude.{◌≡◌};
ghost use Rattle.cell_handed_rules.specs.Offers.{site_of, there_as};

use fact_rows::{Row, Site};

/// Objects that the library may have: those of a site, which were handed, or a component in a state.
#[derive(Clone, Copy)]
pub enum Offer {
    Handed(Site),
    Live(u32, u8),
}

impl Offer {
    pub fn site(self) -> Site
        ensures { result ≡ site_of self }
    {
        match self {
            Offer::Handed(site) => site,
            Offer::Live(component, _) => Site::Component(component),
        }
    }

    /// That they are there.
    pub fn there(self) -> Row
        ensures { result ≡ there_as self }
    {
        match self {
            Offer::Handed(site) => Row::Handed(site),
            Offer::Live(component, state) => Row::Live(component, state),
        }
    }
}
