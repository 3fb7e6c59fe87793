use crate::{Activation, Node, Site};
use access_path::Path;
use app_machine::SummaryId;
use vet_base::KeyId;

/// A field of a row, by what it names.
#[derive(Clone, Copy, PartialEq, Eq, PartialOrd, Ord)]
pub enum Field {
    Node(Node),
    /// A register of the node's method.
    Register(Node, u32),
    Activation(Activation),
    Site(Site),
    Key(KeyId),
    Path(Path),
    /// Of a label or a sink.
    Category(u8),
    Static(u32),
    /// How an activation ends: it returns (0) or throws (1).
    Exit(u8),
    Component(u32),
    /// A state of the component.
    State(u32, u8),
    /// Why what comes next may not be modelled.
    Cause(u8),
    Use(SummaryId),
    /// Which a value has itself, beside no path.
    Label(u8),
}
