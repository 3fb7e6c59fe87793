ghost use Rattle.std.specs.Prelude.{◌≡◌, None};

use case_keeper::Keeper;
use desk_program::{CaseFiles, Keepers};
use disk_host::FileDisk;
use journal_keeper::JournalKeeper;
use kept_cases::KeptCases;
use sqlite_keeper::SqlKeeper;
use std::fs;

/// The database of SQLite, or a journal.
type Cases = KeptCases<SqlKeeper, JournalKeeper<FileDisk>>;

/// The keepers of a folder: the journal where one is there, and else the database of SQLite.
#[derive(Drop)]
pub(crate) struct KeptHere(pub(crate) HostRuntime);

/// A keeper that was told no place yet.
pub(crate) fn nowhere(rt: HostRuntime) -> Cases
    ensures told { ⟦<Cases as Keeper>⟧.told result ≡ None }
    ensures faults { ⟦<Cases as Keeper>⟧.fault_count result ≡ 0 }
{
    KeptCases::Tables(SqlKeeper::new(rt, String::new(rt.alloc())))
}

/// Whether something may be there: what is not known to be absent is.
fn may_be_there(rt: &HostRuntime, path: &str) -> bool {
    fs::exists(rt, path).unwrap_or(true)
}

impl Keepers for KeptHere {
    type Kept = Cases;

    ghost unplaced = { λ kept. (⟦<Cases as Keeper>⟧.told kept ≡ None)
        × (⟦<Cases as Keeper>⟧.fault_count kept ≡ 0) };

    fn place(&self, keeper: &mut Cases, files: CaseFiles) {
        if may_be_there(&self.0, files.journal.as_str()) {
            *keeper = KeptCases::Journal(JournalKeeper::new(FileDisk::new(self.0, files.journal)));
        } else {
            *keeper = KeptCases::Tables(SqlKeeper::new(self.0, files.database));
        }
    }
}
