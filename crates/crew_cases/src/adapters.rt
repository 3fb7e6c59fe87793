//! What only code can ask of the adapters to the system and of the words of a desk.

use crate::run::words_of;
use desk_service::database_path;
use std::{fs, io};
use vet_base::{FileFault, Files, Sink};
use vetting_desk::{HostFiles, StandardSink};

/// The first is `serve OFFICE N`, and the other ones are not.
static LINES: [&str; 12] = [
    "serve shop/office 9999",
    "",
    "serve D",
    "serve D 1 1",
    "Serve D 1",
    "check D 1",
    "serve _ 1",
    "serve D 0",
    "serve D 01",
    "serve D 10000",
    "serve D +1",
    "serve D _",
];

/// Prints where a desk of these words keeps its cases.
pub fn places(rt: &HostRuntime) -> io::Result<()> {
    for line in LINES {
        let words = words_of(rt.alloc(), line)?;
        match database_path(rt.alloc(), &words) {
            Ok(Some(path)) => println!(rt; "{line}: {path}")?,
            Ok(None) => println!(rt; "{line}: no place")?,
            Err(_) => println!(rt; "{line}: out of memory")?,
        }
    }
    Ok(())
}

/// Prints how many failures the files and the output of the system have counted: at first, behind calls that do not
/// fail, and behind a folder that was neither read nor written as a file.
pub fn failures(rt: HostRuntime) -> io::Result<()> {
    let alloc = rt.alloc();
    let mut files = HostFiles::new(rt);
    let mut out = StandardSink::new(rt);
    let first = [files.faults(), out.faults()];
    let wrote = files
        .write(alloc, "written_by_a_test", b"abc".as_slice())
        .is_ok();
    let whole = files
        .read(alloc, "written_by_a_test", 3)
        .is_ok_and(|read| read.as_slice() == b"abc".as_slice());
    let long = files.read(alloc, "written_by_a_test", 2).err() == Some(FileFault::TooLong);
    let none = files.read(alloc, "no_such_file", 9).err() == Some(FileFault::Absent);
    let through = files.read(alloc, "written_by_a_test/classes.dex", 3).err()
        == Some(FileFault::Absent);
    let put = out.put(alloc, b"clear\n".as_slice()).is_ok();
    let then = [files.faults(), out.faults()];
    let read = files.read(alloc, ".", 9).err() == Some(FileFault::Failed);
    let write = files.write(alloc, ".", b"abc".as_slice()).err() == Some(FileFault::Failed);
    fs::remove_file(&rt, "written_by_a_test")?;
    println!(rt;
        "files: {wrote} {whole} {long} {none} {through}, a folder: {read} {write}, output: {put}"
    )?;
    println!(rt; "failures: {first:?}, {then:?}, {}", files.faults())
}
