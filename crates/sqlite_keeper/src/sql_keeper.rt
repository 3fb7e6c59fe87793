ghost use Rattle.std.specs.Prelude.{◌≡◌};

use crate::late_keeper::{LateKeeper, Opener};
use sqlite::{Connection, Error, File, FileStore};

/// A database file by its path, and the log beside it.
#[derive(Drop)]
pub struct DatabaseFile {
    rt: HostRuntime,
    path: String,
}

impl Opener for DatabaseFile {
    type Store = FileStore<File>;

    fn open(&mut self) -> Result<Connection<FileStore<File>>, Error> {
        Connection::open(&self.rt, self.path.as_str())
    }
}

/// A keeper over a database file, which it opens, or makes, at its first call.
pub type SqlKeeper = LateKeeper<DatabaseFile>;

impl LateKeeper<DatabaseFile> {
    /// A keeper over the file at a path. It opens nothing.
    pub fn new(rt: HostRuntime, path: String) -> SqlKeeper
        ensures { result.faults ≡ 0 }
    {
        LateKeeper::over(DatabaseFile { rt, path })
    }
}
