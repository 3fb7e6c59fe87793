//! The two sets of rules, of whose rows a certificate can be.
ghost use Rattle.std.specs.Prelude.{◌≡◌};
ghost use Rattle.cert_rows.specs.Sets.{is_paths, is_cells};

/// The set of rules by which the table of a certificate is made.
#[derive(Clone, Copy, Debug, PartialEq, Eq)]
pub enum Set {
    /// The first: labels are said along paths.
    Paths,
    /// The second: labels are said of values, and of what the cells of objects hold.
    Cells,
}

impl Set {
    pub fn is_paths(self) -> bool
        ensures { result ≡ is_paths self }
    {
        match self {
            Set::Paths => true,
            Set::Cells => false,
        }
    }

    pub fn is_cells(self) -> bool
        ensures { result ≡ is_cells self }
    {
        match self {
            Set::Paths => false,
            Set::Cells => true,
        }
    }
}
