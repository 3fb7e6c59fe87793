ghost use Rattle.std.specs.Prelude.{◌≡◌, None, IfOk};
ghost use Rattle.std.specs.Io.{ReadsAtMost};
ghost use Rattle.desk_links.specs.Links.{IsFront};

use crate::present::Present;
use crate::queue::Queue;
use desk_links::{Door, DoorFault, Link, LinkFault};
use std::alloc::Global;
use std::io;
use std::io::ErrorKind;
use std::net::{Ipv4Addr, Net, SocketAddr};
use std::time::Clock;

/// A door on a port of 127.0.0.1, bound when the first connection is asked for. It takes up to 256 connections and
/// hands each out once: first those whose request seems whole, then those that ended, then those whose peer said
/// nothing for 10 seconds or was waited for for 120 seconds together, in the order in which they came. So a peer that
/// is slow or silent costs its own connection alone. What came of a connection is held: 65,536 bytes each, and of one
/// at a time as much as the desk takes. A failed accept is tried again, for 10 seconds.
///
/// Once a connection is handed out, a read or a write that waits for more than 10 seconds fails, and so does each once
/// its peer was waited for for 120 seconds together. The time that the desk takes to answer does not count. What a peer
/// sends behind its reply is taken beside the others, 12.8 seconds at most.
#[derive(Drop)]
pub struct TcpDoor<R: Net + Clock + Drop> {
    rt: R,
    listener: Option<R::Listener>,
    queue: Option<Queue<R::Stream>>,
    present: Option<Present<R::Stream>>,
    faults: u64,
}

impl<R: Net + Clock + Drop> TcpDoor<R> {
    /// A door of this runtime. Nothing is bound yet, and no call failed.
    pub fn new(rt: R) -> Self
        ensures { result.faults ≡ 0 }
    {
        TcpDoor {
            rt,
            listener: None,
            queue: None,
            present: None,
            faults: 0,
        }
    }

    /// A door over a listener that is bound already; the port that `next` is given is not looked at.
    pub fn over(rt: R, listener: R::Listener) -> Self
        ensures { result.faults ≡ 0 }
    {
        TcpDoor {
            rt,
            listener: Some(listener),
            queue: None,
            present: None,
            faults: 0,
        }
    }
}

fn no_connection() -> io::Error {
    io::Error::from(ErrorKind::NotConnected)
}

impl<R: Net + Clock + Drop> TcpDoor<R> {
    fn read_within(&mut self, room: &mut [u8]) -> io::Result<usize>
        ensures count_stays { self.new.faults ≡ self.old.faults }
        ensures within { ReadsAtMost result room.new }
    {
        match &mut self.present {
            Some(present) => present.read(&self.rt, room),
            None => Err(no_connection()),
        }
    }

    fn write_within(&mut self, bytes: &[u8]) -> io::Result<usize>
        ensures count_stays { self.new.faults ≡ self.old.faults }
        ensures front { IfOk result (λ n. IsFront n bytes.now) }
    {
        match &mut self.present {
            Some(present) => present.write(&self.rt, bytes),
            None => Err(no_connection()),
        }
    }

    /// Ends the present connection, whose peer may be gone.
    fn close(&mut self)
        ensures count_stays { self.new.faults ≡ self.old.faults }
    {
        if let Some(present) = self.present.take() {
            if let Some(queue) = &mut self.queue {
                present.end(queue);
            }
        }
    }

    fn bound(&mut self, alloc: Global, port: u16) -> io::Result<()>
        ensures count_stays { self.new.faults ≡ self.old.faults }
    {
        if self.listener.is_none() {
            let address = SocketAddr::from((Ipv4Addr::LOCALHOST, port));
            self.listener = Some(self.rt.bind(address)?);
        }
        if self.queue.is_none() {
            self.queue = Some(Queue::new(alloc)?);
        }
        Ok(())
    }

    /// Hands out the next connection.
    fn handed_out(&mut self, alloc: Global) -> io::Result<()>
        ensures count_stays { self.new.faults ≡ self.old.faults }
    {
        let (Some(listener), Some(queue)) = (&self.listener, &mut self.queue) else {
            return Err(no_connection());
        };
        let held = queue.next(alloc, &self.rt, listener)?;
        self.present = Some(Present::new(held));
        Ok(())
    }

    fn open(&mut self, alloc: Global, port: u16) -> io::Result<()>
        ensures count_stays { self.new.faults ≡ self.old.faults }
    {
        self.close();
        self.bound(alloc, port)?;
        self.handed_out(alloc)
    }
}

impl<R: Net + Clock + Drop> Link for TcpDoor<R> {
    ghost told = { λ _. None };

    ghost fault_count = { λ d. d.faults };

    fn read(&mut self, room: &mut [u8]) -> Result<usize, LinkFault> {
        match self.read_within(room) {
            Ok(count) => Ok(count),
            Err(_) => {
                self.faults = self.faults.saturating_add(1);
                Err(LinkFault::Failed)
            }
        }
    }

    fn write(&mut self, bytes: &[u8]) -> Result<usize, LinkFault> {
        match self.write_within(bytes) {
            Ok(count) => Ok(count),
            Err(_) => {
                self.faults = self.faults.saturating_add(1);
                Err(LinkFault::Failed)
            }
        }
    }

    fn faults(&self) -> u64 {
        self.faults
    }
}

impl<R: Net + Clock + Drop> Door for TcpDoor<R> {
    fn next(&mut self, alloc: Global, port: u16) -> Result<bool, DoorFault> {
        match self.open(alloc, port) {
            Ok(()) => Ok(true),
            Err(e) => match e.kind() {
                ErrorKind::OutOfMemory => Err(DoorFault::Memory),
                _ => {
                    self.faults = self.faults.saturating_add(1);
                    Err(DoorFault::Failed)
                }
            },
        }
    }
}
