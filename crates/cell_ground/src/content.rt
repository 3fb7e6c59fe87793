ghost use Rattle.std.specs.Prelude.{◌≡◌};
ghost use Rattle.cell_ground.specs.Coming.{held, held_static, leaves, stored};

use fact_rows::{Activation, Node, Row, Site};
use vet_base::KeyId;

/// What a register, a static, a cell or a result may hold: an object of a site, or a value that has the label itself.
#[derive(Clone, Copy)]
pub enum Content {
    Object(Site),
    Label(u8),
}

impl Content {
    /// A register holds it at a node.
    pub fn held(self, node: Node, register: u32) -> Row
        ensures { result ≡ held self node register }
    {
        match self {
            Content::Object(site) => Row::Points(node, register, site),
            Content::Label(label) => Row::Label(node, register, label),
        }
    }

    /// A static holds it.
    pub fn held_static(self, number: u32) -> Row
        ensures { result ≡ held_static self number }
    {
        match self {
            Content::Object(site) => Row::StaticPoints(number, site),
            Content::Label(label) => Row::StaticLabel(number, label),
        }
    }

    /// It leaves an activation, which returns (0) or throws (1).
    pub fn leaves(self, by: Activation, how: u8) -> Row
        ensures { result ≡ leaves self by how }
    {
        match self {
            Content::Object(site) => Row::ExitPoints(by, how, site),
            Content::Label(label) => Row::ExitLabel(by, how, label),
        }
    }

    /// An object of the site holds it under the key.
    pub fn stored(self, site: Site, key: KeyId) -> Row
        ensures { result ≡ stored self site key }
    {
        match self {
            Content::Object(held) => Row::Cell(site, key, held),
            Content::Label(label) => Row::CellLabel(site, key, label),
        }
    }
}
