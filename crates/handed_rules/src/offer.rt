//! What the library may have, and what is known of it.
ghost use Rattle.std.specs.Prelude.{◌≡◌};
ghost use Rattle.handed_rules.specs.Offers.{labels_key, leads_as, site_of, there_as, there_key};

use access_path::Path;
use fact_rows::{Row, Site};
use rule_ground::Key;

/// Objects that the library may have: those of a site, which were handed, or a component in a state.
#[derive(Clone, Copy)]
pub enum Offer {
    Handed(Site),
    Live(u32, u8),
}

/// What is known of them: that they are there, or a label to which they lead.
#[derive(Clone, Copy)]
pub enum Known {
    There,
    Leads(Path, u8),
}

impl Offer {
    pub fn site(self) -> Site
        ensures { result ≡ site_of self }
    {
        match self {
            Offer::Handed(site) => site,
            Offer::Live(component, _) => Site::Component(component),
        }
    }

    /// That they are there.
    pub fn there(self) -> Row
        ensures { result ≡ there_as self }
    {
        match self {
            Offer::Handed(site) => Row::Handed(site),
            Offer::Live(component, state) => Row::Live(component, state),
        }
    }

    /// That they lead to the label.
    pub fn leads(self, path: Path, label: u8) -> Row
        ensures { result ≡ leads_as self path label }
    {
        match self {
            Offer::Handed(site) => Row::HandedTaint(site, path, label),
            Offer::Live(component, state) => Row::CompTaint(component, state, path, label),
        }
    }

    /// Under which key it stands that they are there.
    pub fn there_key(self) -> Key
        ensures { result ≡ there_key self }
    {
        match self {
            Offer::Handed(site) => Key::HandedOf(site),
            Offer::Live(component, _) => Key::LivesOf(component),
        }
    }

    /// Under which key it stands to what they lead.
    pub fn labels_key(self) -> Key
        ensures { result ≡ labels_key self }
    {
        match self {
            Offer::Handed(site) => Key::HandedTaintsOf(site),
            Offer::Live(component, state) => Key::CompTaintsOf(component, state),
        }
    }
}
