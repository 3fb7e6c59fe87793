//! Databases over files in memory that may fail. All is written for whatever store or whatever disk, since a function
//! that names the store over its disk is dear to prove: the disk is named where its functions are, and once more where
//! all is run.

use crate::faults::{Fault, Faults, NEVER};
use failing_disk::Stumbling;
use sqlite::{Alter, Connection, FileStore, Files, Options};
use sqlite_disk::{Crash, Disk, Fuse, Memory};
use std::alloc::Global;
use std::io;

/// What holds the files of a database.
pub trait Filed: Alter + Drop {
    /// An empty database, of which log and file fail so. Where they stop, the machine comes back when they are opened
    /// again; and where the database can't be made at first, it comes back then.
    fn blank(alloc: Global, faults: Faults) -> io::Result<Connection<Self>>;

    /// The database of a file that has these bytes.
    fn of_bytes(alloc: Global, bytes: &[u8]) -> io::Result<Connection<Self>>;

    /// The database over the same files, which are closed and opened again. Where they may have failed, the machine
    /// comes back in between, by which what was not synced is lost.
    fn reopened(self, alloc: Global, may_have_failed: bool) -> io::Result<Connection<Self>>;
}

/// Opens files; where they are not opened, they are given back.
fn open<D: Crash + Drop>(
    alloc: Global,
    files: Files<D>,
) -> Result<Connection<FileStore<D>>, Files<D>> {
    if !files.may_be_used() {
        return Err(files);
    }
    match Connection::open_files(alloc, files, Options::new(1)) {
        Ok(connection) => Ok(connection),
        Err((_, left)) => Err(left.into_files()),
    }
}

fn opened<D: Crash + Drop>(alloc: Global, files: Files<D>) -> io::Result<Connection<FileStore<D>>> {
    match open(alloc, files) {
        Ok(connection) => Ok(connection),
        Err(_) => Err(io::Error::other("the files are not opened")),
    }
}

/// The files once the machine has come back.
fn come_back<D: Crash>(files: Files<D>) -> Files<D> {
    let mut files = files;
    files.log.crash();
    files.db.crash();
    files
}

/// Opens files; where they fail at first, the machine comes back, and they are opened then.
fn opened_at_last<D: Crash + Drop>(
    alloc: Global,
    files: Files<D>,
) -> io::Result<Connection<FileStore<D>>> {
    match open(alloc, files) {
        Ok(connection) => Ok(connection),
        Err(files) => opened(alloc, come_back(files)),
    }
}

/// Copies the log into the database file, closes both and opens them again.
fn closed_and_opened<D: Crash + Drop>(
    alloc: Global,
    store: FileStore<D>,
) -> io::Result<Connection<FileStore<D>>> {
    let mut store = store;
    let is_copied = store.checkpoint().is_ok();
    let files = store.close();
    if is_copied {
        opened(alloc, files)
    } else {
        Err(io::Error::other("the log is not copied"))
    }
}

/// A disk in memory that may fail.
pub trait Faulty: Crash + Drop {
    /// An empty disk that fails so.
    fn blank(alloc: Global, fault: Fault) -> Self;
}

impl Faulty for Stumbling<Fuse<Memory>> {
    fn blank(alloc: Global, fault: Fault) -> Stumbling<Fuse<Memory>> {
        Stumbling::new(Fuse::new(Memory::new(alloc), fault.stops), fault.stumble)
    }
}

/// Writes a file that is empty.
fn write<D: Disk>(disk: &mut D, bytes: &[u8]) -> io::Result<()> {
    if !disk.may_be_used() {
        return Err(io::Error::other("the file is not written"));
    }
    disk.write_at(0, bytes)?;
    disk.sync()
}

/// A disk that has these bytes, and does not fail.
fn written<D: Faulty>(alloc: Global, bytes: &[u8]) -> io::Result<D> {
    let mut disk = D::blank(alloc, NEVER);
    write(&mut disk, bytes)?;
    Ok(disk)
}

impl<D: Faulty> Filed for FileStore<D> {
    fn blank(alloc: Global, faults: Faults) -> io::Result<Connection<FileStore<D>>> {
        let files = Files {
            log: D::blank(alloc, faults.log),
            db: D::blank(alloc, faults.db),
        };
        opened_at_last(alloc, files)
    }

    fn of_bytes(alloc: Global, bytes: &[u8]) -> io::Result<Connection<FileStore<D>>> {
        let db = written(alloc, bytes)?;
        let log = D::blank(alloc, NEVER);
        opened(alloc, Files { log, db })
    }

    fn reopened(
        self,
        alloc: Global,
        may_have_failed: bool,
    ) -> io::Result<Connection<FileStore<D>>> {
        if may_have_failed {
            return opened(alloc, come_back(self.close()));
        }
        closed_and_opened(alloc, self)
    }
}
