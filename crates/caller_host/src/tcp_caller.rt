ghost use Rattle.std.specs.Prelude.{◌≡◌, None, IfOk};
ghost use Rattle.std.specs.Io.{ReadsAtMost};
ghost use Rattle.desk_links.specs.Links.{IsFront};

use desk_callers::{Caller, DialFault};
use desk_links::{Link, LinkFault};
use std::io::{ErrorKind, Read, Write};
use std::net::{Ipv4Addr, Net, OpenStream, SocketAddr};
use std::time::{Clock, Duration};
use std::{io, thread};

/// The longest that all reads and writes of one connection wait together, in seconds: a reply is given up then.
const CONNECTION_LIMIT: u64 = 120;

/// The longest pause before a dial, in seconds.
const PAUSE_LIMIT: u64 = 30;

/// A caller that dials ports of 127.0.0.1. The first dial is made at once, and before each later
/// one it pauses, for 1 second, then 2, 4 and so on up to 30, so that a desk that starts anew is
/// found. Each read or write fails once those of its connection waited for 120 seconds together.
#[derive(Drop)]
pub struct TcpCaller<R: Net + Clock + Drop> {
    rt: R,
    stream: Option<R::Stream>,
    /// For how long the present connection may wait still.
    left: Duration,
    /// The pause before the next dial, in seconds.
    pause: u64,
    faults: u64,
}

impl<R: Net + Clock + Drop> TcpCaller<R> {
    /// A caller of this runtime. Nothing is dialled yet, and no call failed.
    pub fn new(rt: R) -> Self
        ensures { result.faults ≡ 0 }
    {
        TcpCaller {
            rt,
            stream: None,
            left: Duration::ZERO,
            pause: 0,
            faults: 0,
        }
    }
}

/// The pause behind this one.
fn longer(pause: u64) -> u64 {
    pause.saturating_mul(2).clamp(1, PAUSE_LIMIT)
}

fn no_connection() -> io::Error {
    io::Error::from(ErrorKind::NotConnected)
}

/// For how long the next call may wait, where the connection may wait still.
fn wait_of(left: Duration) -> io::Result<Duration> {
    if left.is_zero() {
        return Err(io::Error::from(ErrorKind::TimedOut));
    }
    Ok(left)
}

fn read_of<S: Read + OpenStream>(
    stream: &mut S,
    wait: Duration,
    room: &mut [u8],
) -> io::Result<usize>
    ensures { ReadsAtMost result room.new }
{
    stream.set_read_timeout(Some(wait))?;
    stream.read(room)
}

/// Writes some of the bytes, one at least where there are some.
fn write_of<S: Write + OpenStream>(
    stream: &mut S,
    wait: Duration,
    bytes: &[u8],
) -> io::Result<usize>
    ensures { IfOk result (λ n. IsFront n bytes.now) }
{
    stream.set_write_timeout(Some(wait))?;
    match stream.write(bytes)? {
        0 if !bytes.is_empty() => Err(io::Error::from(ErrorKind::WriteZero)),
        count => Ok(count),
    }
}

impl<R: Net + Clock + Drop> TcpCaller<R> {
    /// Counts the time since then as waiting.
    fn waited(&mut self, since: Duration) -> io::Result<()>
        ensures count_stays { self.new.faults ≡ self.old.faults }
    {
        let now = self.rt.monotonic()?;
        self.left = self.left.saturating_sub(now.saturating_sub(since));
        Ok(())
    }

    fn read_within(&mut self, room: &mut [u8]) -> io::Result<usize>
        ensures count_stays { self.new.faults ≡ self.old.faults }
        ensures within { ReadsAtMost result room.new }
    {
        let wait = wait_of(self.left)?;
        let since = self.rt.monotonic()?;
        let Some(stream) = &mut self.stream else {
            return Err(no_connection());
        };
        let count = read_of(stream, wait, room)?;
        self.waited(since)?;
        Ok(count)
    }

    fn write_within(&mut self, bytes: &[u8]) -> io::Result<usize>
        ensures count_stays { self.new.faults ≡ self.old.faults }
        ensures front { IfOk result (λ n. IsFront n bytes.now) }
    {
        let wait = wait_of(self.left)?;
        let since = self.rt.monotonic()?;
        let Some(stream) = &mut self.stream else {
            return Err(no_connection());
        };
        let count = write_of(stream, wait, bytes)?;
        self.waited(since)?;
        Ok(count)
    }

    /// Ends the present connection, pauses, and dials.
    fn open(&mut self, port: u16) -> io::Result<()>
        ensures count_stays { self.new.faults ≡ self.old.faults }
    {
        self.stream = None;
        if self.pause > 0 {
            thread::sleep(&self.rt, Duration::from_secs(self.pause));
        }
        self.pause = longer(self.pause);
        let address = SocketAddr::from((Ipv4Addr::LOCALHOST, port));
        self.stream = Some(self.rt.connect(address)?);
        self.left = Duration::from_secs(CONNECTION_LIMIT);
        Ok(())
    }
}

impl<R: Net + Clock + Drop> Link for TcpCaller<R> {
    ghost told = { λ _. None };

    ghost fault_count = { λ d. d.faults };

    fn read(&mut self, room: &mut [u8]) -> Result<usize, LinkFault> {
        match self.read_within(room) {
            Ok(count) => Ok(count),
            Err(_) => {
                self.faults = self.faults.saturating_add(1);
                Err(LinkFault::Failed)
            }
        }
    }

    fn write(&mut self, bytes: &[u8]) -> Result<usize, LinkFault> {
        match self.write_within(bytes) {
            Ok(count) => Ok(count),
            Err(_) => {
                self.faults = self.faults.saturating_add(1);
                Err(LinkFault::Failed)
            }
        }
    }

    fn faults(&self) -> u64 {
        self.faults
    }
}

impl<R: Net + Clock + Drop> Caller for TcpCaller<R> {
    fn dial(&mut self, port: u16) -> Result<(), DialFault> {
        match self.open(port) {
            Ok(()) => Ok(()),
            Err(_) => {
                self.faults = self.faults.saturating_add(1);
                Err(DialFault::Failed)
            }
        }
    }
}
