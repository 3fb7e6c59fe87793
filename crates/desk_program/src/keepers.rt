ghost use Rattle.std.specs.Prelude.{◌≡◌};

use crate::CaseFiles;
use case_keeper::Keeper;

/// How a keeper of cases is told where they may be kept.
pub trait Keepers {
    type Kept: Keeper + Drop;

    /// What is so of a keeper that was told no place yet.
    ghost unplaced: { Self.Kept → Type 0 };

    /// From now on the keeper has the cases that are kept in one of these files. No file is made yet, and no content of
    /// one is read: what the keeper tells and has counted stays.
    fn place(&self, keeper: &mut Self::Kept, files: CaseFiles)
        requires { unplaced keeper.old }
        ensures told { Self.Kept.told keeper.new ≡ Self.Kept.told keeper.old }
        ensures faults { Self.Kept.fault_count keeper.new ≡ Self.Kept.fault_count keeper.old };
}
