//! What is asked of the file at a path.
ghost use Rattle.std.specs.Prelude.{◌≤◌, length, IfOk};

use std::fs::{File, OpenOptions};
use std::io;
use std::os::unix::fs::FileExt;

/// Opens a file that is there, for reading and writing.
fn open_at(rt: &HostRuntime, path: &str) -> io::Result<File> {
    OpenOptions::new().read(true).write(true).open(rt, path)
}

/// The file, which is opened where it is not open.
fn opened<'a>(
    rt: &HostRuntime,
    path: &str,
    file: &'a mut Option<File>,
) -> io::Result<&'a mut File> {
    let found = match file.take() {
        Some(found) => found,
        None => open_at(rt, path)?,
    };
    Ok(file.insert(found))
}

pub(crate) fn length_of(rt: &HostRuntime, path: &str, file: &mut Option<File>) -> io::Result<u64> {
    Ok(opened(rt, path, file)?.metadata()?.len())
}

pub(crate) fn read_at(
    rt: &HostRuntime,
    path: &str,
    file: &mut Option<File>,
    at: u64,
    room: &mut [u8],
) -> io::Result<usize>
    ensures { IfOk result (λ n. n ≤ length room.old) }
{
    opened(rt, path, file)?.read_at(room, at)
}

pub(crate) fn write_at(
    rt: &HostRuntime,
    path: &str,
    file: &mut Option<File>,
    at: u64,
    bytes: &[u8],
) -> io::Result<()> {
    opened(rt, path, file)?.write_all_at(bytes, at)
}

pub(crate) fn cut_at(
    rt: &HostRuntime,
    path: &str,
    file: &mut Option<File>,
    len: u64,
) -> io::Result<()> {
    opened(rt, path, file)?.set_len(len)
}

pub(crate) fn sync_of(rt: &HostRuntime, path: &str, file: &mut Option<File>) -> io::Result<()> {
    opened(rt, path, file)?.sync_all()
}
