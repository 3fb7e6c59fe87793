ghost use Rattle.std.specs.Prelude.{◌≡◌};
ghost use Rattle.event_rules.specs.EventGiven.{content_of, handed_as, live_as};

use access_path::Path;
use fact_rows::{Row, Site};
use rule_ground::Content;

/// What is known of a component in a state, or of a handed object: that it is there, or a label to
/// which it leads.
#[derive(Clone, Copy)]
pub enum Known {
    There,
    Leads(Path, u8),
}

impl Known {
    /// What a register holds that holds the object, which is of the site.
    pub fn content(self, site: Site) -> Content
        ensures { result ≡ content_of self site }
    {
        match self {
            Known::There => Content::Object(site),
            Known::Leads(path, label) => Content::Label(path, label),
        }
    }

    /// That it is known of the component in the state.
    pub fn live(self, component: u32, state: u8) -> Row
        ensures { result ≡ live_as self component state }
    {
        match self {
            Known::There => Row::Live(component, state),
            Known::Leads(path, label) => Row::CompTaint(component, state, path, label),
        }
    }

    /// That it is known of a handed object of the site.
    pub fn handed(self, site: Site) -> Row
        ensures { result ≡ handed_as self site }
    {
        match self {
            Known::There => Row::Handed(site),
            Known::Leads(path, label) => Row::HandedTaint(site, path, label),
        }
    }
}
