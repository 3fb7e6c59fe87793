use crate::held::{Held, Stage};
use crate::parting::Parting;
use std::alloc::{AllocError, Global};
use std::io::{ErrorKind, Read};
use std::net::{OpenListener, OpenStream};
use std::time::{Clock, Duration};
use std::{io, thread};

/// How many connections are taken before they are handed out, at most. Further ones wait in the queue of the system.
const HELD_LIMIT: usize = 256;

/// How many connections whose reply was written are listened to, at most. Of more than that the first is closed.
const PARTING_LIMIT: usize = 64;

/// For how long nothing is looked at where nothing came, in milliseconds.
const PAUSE: u64 = 4;

/// How often a connection is tried to be taken where that fails.
const TRIES: u32 = 100;

/// The pause between two tries, in milliseconds.
const TRY_PAUSE: u64 = 100;

/// The connections that were taken and not handed out yet, in the order in which they came, and those whose reply was
/// written.
#[derive(Drop)]
pub(crate) struct Queue<S> {
    held: Vec<Held<S>>,
    parting: Vec<Parting<S>>,
}

/// Waits for a connection. One that fails is tried again, 100 times with a pause of 100 milliseconds.
fn awaited<R: Clock, L: OpenListener>(rt: &R, listener: &L) -> io::Result<L::Stream> {
    listener.set_nonblocking(false)?;
    for _ in 1..TRIES {
        match listener.accept() {
            Ok((stream, _)) => return Ok(stream),
            Err(_) => thread::sleep(rt, Duration::from_millis(TRY_PAUSE)),
        }
    }
    let (stream, _) = listener.accept()?;
    Ok(stream)
}

impl<S: Read + OpenStream + Drop> Queue<S> {
    /// No connections, and room for as many as there may be, so that none is lost for want of memory.
    pub(crate) fn new(alloc: Global) -> Result<Self, AllocError> {
        Ok(Queue {
            held: Vec::with_capacity(alloc, HELD_LIMIT)?,
            parting: Vec::with_capacity(alloc, PARTING_LIMIT)?,
        })
    }

    /// Whether there is none that something may come of, so that the next one can be waited for.
    fn is_empty(&self) -> bool {
        self.held.is_empty() && self.parting.is_empty()
    }

    /// Ends a connection to which a reply was written.
    pub(crate) fn part(&mut self, stream: S) {
        if self.parting.len() >= PARTING_LIMIT {
            self.parting.remove(0);
        }
        if let Some(parting) = Parting::new(stream) {
            let _ = self.parting.push(parting);
        }
    }

    /// Waits for the first connection, where there is none.
    fn take_first<R: Clock, L: OpenListener<Stream = S>>(
        &mut self,
        alloc: Global,
        rt: &R,
        listener: &L,
    ) -> io::Result<()> {
        let stream = awaited(rt, listener)?;
        self.held.push(Held::new(alloc, stream))?;
        Ok(())
    }

    /// Takes the connections that have come, as many as there is room for.
    fn take_more<L: OpenListener<Stream = S>>(
        &mut self,
        alloc: Global,
        listener: &L,
    ) -> io::Result<()> {
        listener.set_nonblocking(true)?;
        for _ in self.held.len()..HELD_LIMIT {
            let Ok((stream, _)) = listener.accept() else {
                return Ok(());
            };
            self.held.push(Held::new(alloc, stream))?;
        }
        Ok(())
    }

    /// Gives the turn to come whole to the first that waits for it, where no other has it.
    fn give_turn(&mut self) {
        if self.held.iter().any(|held| held.is_large) {
            return;
        }
        if let Some(held) = self.held.iter_mut().find(|held| held.is_stalled()) {
            held.is_large = true;
        }
    }

    /// Takes what has come in the time that passed, and gives whether it was anything.
    fn advance(&mut self, passed: Duration) -> bool {
        let mut came = false;
        for held in self.held.iter_mut() {
            came |= held.advance(passed);
        }
        self.parting.retain_mut(|parting| parting.advance(passed));
        came
    }

    /// The one to be handed out: the first whose request seems whole, or else the first that ended, or else the first
    /// that had all the time there is.
    fn due(&mut self) -> Option<Held<S>> {
        for stage in [Stage::Whole, Stage::Ended, Stage::Late] {
            if let Some(place) = self.held.iter().position(|held| held.stage == stage) {
                return Some(self.held.remove(place));
            }
        }
        None
    }

    /// Waits a little, for the one that came last of those that may send something.
    fn rest<R: Clock>(&mut self, rt: &R) {
        let longest = Duration::from_millis(PAUSE);
        if let Some(held) = self.held.iter_mut().rev().find(|held| !held.is_stalled()) {
            return held.rest(longest);
        }
        match self.parting.last() {
            Some(parting) => parting.rest(longest),
            None => thread::sleep(rt, longest),
        }
    }

    /// Takes connections until one is to be handed out.
    pub(crate) fn next<R: Clock, L: OpenListener<Stream = S>>(
        &mut self,
        alloc: Global,
        rt: &R,
        listener: &L,
    ) -> io::Result<Held<S>> {
        let mut last = rt.monotonic()?;
        for _ in 0..u64::MAX {
            self.take_more(alloc, listener)?;
            if self.is_empty() {
                self.take_first(alloc, rt, listener)?;
                last = rt.monotonic()?;
            }
            let now = rt.monotonic()?;
            let came = self.advance(now.saturating_sub(last));
            last = now;
            if let Some(held) = self.due() {
                return Ok(held);
            }
            self.give_turn();
            if !came && !self.is_empty() {
                self.rest(rt);
            }
        }
        Err(io::Error::from(ErrorKind::TimedOut))
    }
}
