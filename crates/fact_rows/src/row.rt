ghost use Rattle.fact_rows.specs.OrderLaws.{exact_row};

use crate::{Activation, Node, Site};
use access_path::Path;
use app_machine::SummaryId;
use sorted_table::Exact;
use vet_base::KeyId;

/// A fact. Registers are numbers; 65536 is the result of the last call and 65537 the exception.
/// Labels and sinks are numbers of categories.
///
/// A row takes 96 bytes, those of an effect: a kind (4), a node (28), a site (32, a node or less and
/// its kind), a path (28, its keys, their number and whether it is open) and a label (4). It
/// stays so, since fields that are packed into one another would hide the order of rows, which is
/// derived from the fields as they stand.
#[derive(Clone, Copy, Debug, PartialEq, Eq, PartialOrd, Ord, Hash)]
pub enum Row {
    /// Control comes to the node.
    Reached(Node),
    /// At the node the register may hold an object of the site.
    Points(Node, u32, Site),
    /// At the node the register may lead to a value of the label by the path.
    Taint(Node, u32, Path, u8),
    /// An object of the first site may hold one of the second under the key.
    Cell(Site, KeyId, Site),
    /// The same from the held object's side.
    Back(Site, KeyId, Site),
    /// The static may hold an object of the site.
    StaticPoints(u32, Site),
    /// The static may lead to a value of the label by the path.
    StaticTaint(u32, Path, u8),
    /// The node may enter the activation.
    Calls(Node, Activation),
    /// The same from the activation's side.
    CalledBy(Activation, Node),
    /// The step of the node may make objects of the site lead to a value of the label by the path.
    Effect(Node, Site, Path, u8),
    /// Some step of the activation, or of what it calls, may do so.
    MethodEffect(Activation, Site, Path, u8),
    /// The activation may return (0) or throw (1) an object of the site.
    ExitPoints(Activation, u8, Site),
    /// What it returns (0) or throws (1) may lead to a value of the label by the path.
    ExitTaint(Activation, u8, Path, u8),
    /// The component may be in the state.
    Live(u32, u8),
    /// In the state the component's object may lead to a value of the label by the path.
    CompTaint(u32, u8, Path, u8),
    /// The library may have been handed an object of the site.
    Handed(Site),
    /// Such an object may lead to a value of the label by the path.
    HandedTaint(Site, Path, u8),
    /// At the node a value of the label may come to a sink of the category.
    Arrive(u8, u8, Node),
    /// At the node what comes next may not be modelled: there is no summary (1), the body is native
    /// (2) or the method is reflective (3).
    Unknown(Node, u8),
    /// At the node the summary may be used.
    Uses(Node, SummaryId),
    /// At the node the register's value may have the label itself. This kind and the next four say labels
    /// of values and not of paths: rules and certificates of the second set have them, of the first none.
    Label(Node, u32, u8),
    /// The static's value may have the label itself.
    StaticLabel(u32, u8),
    /// An object of the site may hold a value with the label under the key.
    CellLabel(Site, KeyId, u8),
    /// From an object of the site a value with the label may be reached.
    Holds(Site, u8),
    /// What the activation returns (0) or throws (1) may have the label itself.
    ExitLabel(Activation, u8, u8),
}

impl Exact for Row {
    ghost exact = { exact_row };
}
