ghost use Rattle.std.specs.Prelude.{◌≤◌, length, IfOk};
ghost use Rattle.std.specs.Io.{ReadsAtMost};
ghost use Rattle.desk_links.specs.Links.{IsFront};

use crate::held::{CALL_LIMIT, CONNECTION_LIMIT, Held, Stage};
use crate::queue::Queue;
use std::io;
use std::io::{ErrorKind, Read, Write};
use std::net::OpenStream;
use std::time::{Clock, Duration};

/// The connection that was handed out.
#[derive(Drop)]
pub(crate) struct Present<S> {
    stream: S,
    /// What came of its request before.
    came: Vec<u8>,
    /// How much of that was read.
    at: usize,
    /// For how long it may wait still.
    left: Duration,
    /// Whether its peer had all the time there is to send something.
    is_late: bool,
    was_written: bool,
}

fn timed_out() -> io::Error {
    io::Error::from(ErrorKind::TimedOut)
}

/// For how long the next call may wait, where the connection may wait so long still.
fn wait_of(left: Duration) -> io::Result<Duration> {
    if left.is_zero() {
        return Err(timed_out());
    }
    Ok(left.min(Duration::from_secs(CALL_LIMIT)))
}

fn read_of<S: Read + OpenStream>(
    stream: &mut S,
    wait: Duration,
    room: &mut [u8],
) -> io::Result<usize>
    ensures { ReadsAtMost result room.new }
{
    stream.set_read_timeout(Some(wait))?;
    stream.read(room)
}

/// Writes some of the bytes, one at least where there are some.
fn write_of<S: Write + OpenStream>(
    stream: &mut S,
    wait: Duration,
    bytes: &[u8],
) -> io::Result<usize>
    ensures { IfOk result (λ n. IsFront n bytes.now) }
{
    stream.set_write_timeout(Some(wait))?;
    match stream.write(bytes)? {
        0 if !bytes.is_empty() => Err(io::Error::from(ErrorKind::WriteZero)),
        count => Ok(count),
    }
}

impl<S: Read + Write + OpenStream + Drop> Present<S> {
    /// The connection with what came of it, whose stream blocks from now on.
    pub(crate) fn new(held: Held<S>) -> Self {
        let is_late = held.stage == Stage::Late;
        let left = Duration::from_secs(CONNECTION_LIMIT).saturating_sub(held.waited);
        let _ = held.stream.set_nonblocking(false);
        Present {
            stream: held.stream,
            came: held.came,
            at: 0,
            left: left.max(Duration::from_secs(CALL_LIMIT)),
            is_late,
            was_written: false,
        }
    }

    /// Counts the time since then as waiting.
    fn waited<R: Clock>(&mut self, rt: &R, since: Duration) -> io::Result<()> {
        let now = rt.monotonic()?;
        self.left = self.left.saturating_sub(now.saturating_sub(since));
        Ok(())
    }

    /// Gives what came before, as much as there is room for.
    fn given(&mut self, room: &mut [u8]) -> usize
        ensures { result ≤ length room.new }
    {
        let Some(rest) = self.came.get(self.at..) else {
            return 0;
        };
        let count = rest.len().min(room.len());
        room[..count].copy_from_slice(&rest[..count]);
        self.at = self.at.saturating_add(count);
        count
    }

    pub(crate) fn read<R: Clock>(&mut self, rt: &R, room: &mut [u8]) -> io::Result<usize>
        ensures { ReadsAtMost result room.new }
    {
        let count = self.given(room);
        if count > 0 {
            return Ok(count);
        }
        if self.is_late {
            return Err(timed_out());
        }
        let wait = wait_of(self.left)?;
        let since = rt.monotonic()?;
        let count = read_of(&mut self.stream, wait, room)?;
        self.waited(rt, since)?;
        Ok(count)
    }

    pub(crate) fn write<R: Clock>(&mut self, rt: &R, bytes: &[u8]) -> io::Result<usize>
        ensures { IfOk result (λ n. IsFront n bytes.now) }
    {
        let wait = wait_of(self.left)?;
        let since = rt.monotonic()?;
        self.was_written = true;
        let count = write_of(&mut self.stream, wait, bytes)?;
        self.waited(rt, since)?;
        Ok(count)
    }

    /// Ends the connection. Where something was written to it, its peer is listened to for a while.
    pub(crate) fn end(self, queue: &mut Queue<S>) {
        if self.was_written {
            queue.part(self.stream);
        }
    }
}
