ghost use Rattle.std.specs.Prelude.{◌≡◌};
ghost use Rattle.fact_rows.specs.Kinds.{number_of};

/// The kind of a row. The number is that of its byte where it is written.
#[derive(Clone, Copy, PartialEq, Eq, PartialOrd, Ord)]
pub enum Kind {
    Reached = 1,
    Points,
    Taint,
    Cell,
    Back,
    StaticPoints,
    StaticTaint,
    Calls,
    CalledBy,
    Effect,
    MethodEffect,
    ExitPoints,
    ExitTaint,
    Live,
    CompTaint,
    Handed,
    HandedTaint,
    Arrive,
    Unknown,
    Uses,
    Label,
    StaticLabel,
    CellLabel,
    Holds,
    ExitLabel,
}

impl Kind {
    /// From 1 to 25.
    pub fn number(self) -> u8
        ensures { result ≡ number_of self }
    {
        self as u8
    }
}
