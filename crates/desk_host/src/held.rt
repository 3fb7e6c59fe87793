use crate::pause::pause;
use crate::seeming::seeming_length;
use std::alloc::Global;
use std::io::{ErrorKind, Read};
use std::net::OpenStream;
use std::time::Duration;

/// The longest that a peer says nothing, in seconds.
pub(crate) const CALL_LIMIT: u64 = 10;

/// The longest that a connection waits for its peer in all, in seconds.
pub(crate) const CONNECTION_LIMIT: u64 = 120;

/// The most bytes of a request that come while it waits for its turn to come whole.
const SMALL: usize = 65_536;

/// The most bytes that are taken at once.
const ROOM: usize = 16_384;

/// How often so many are taken before the others are looked at.
const TURNS: usize = 16;

/// How far a connection is that was taken.
#[derive(Clone, Copy, Debug, PartialEq, Eq)]
pub(crate) enum Stage {
    /// More is to come.
    Waiting,
    /// The request seems whole, or memory for the rest is wanting.
    Whole,
    /// The peer sends no more, or is gone.
    Ended,
    /// The peer had all the time there is.
    Late,
}

/// A connection that was taken, and what came of its request. Its stream does not block.
#[derive(Drop)]
pub(crate) struct Held<S> {
    pub(crate) stream: S,
    pub(crate) came: Vec<u8>,
    pub(crate) stage: Stage,
    /// For how long it has been waiting for its peer in all.
    pub(crate) waited: Duration,
    /// For how long nothing came.
    quiet: Duration,
    /// How many bytes the request seems to have, once its head is there.
    total: Option<usize>,
    /// Whether it may come whole however long it is.
    pub(crate) is_large: bool,
}

/// What one look at a stream gave.
enum Look {
    Bytes,
    Nothing,
    End,
    NoMemory,
}

impl<S: Read + OpenStream + Drop> Held<S> {
    /// A connection of which nothing came yet.
    pub(crate) fn new(alloc: Global, stream: S) -> Self {
        let stage = match stream.set_nonblocking(true) {
            Ok(()) => Stage::Waiting,
            Err(_) => Stage::Ended,
        };
        Held {
            stream,
            came: Vec::new(alloc),
            stage,
            waited: Duration::ZERO,
            quiet: Duration::ZERO,
            total: None,
            is_large: false,
        }
    }

    /// How many bytes it may have for now.
    fn most(&self) -> usize {
        match self.total {
            Some(total) if self.is_large => total,
            Some(total) => total.min(SMALL),
            None => SMALL,
        }
    }

    /// Whether it waits for its turn to come whole.
    pub(crate) fn is_stalled(&self) -> bool {
        self.stage == Stage::Waiting && self.came.len() >= self.most()
    }

    /// Takes some of what has come, where there is some.
    fn look(&mut self) -> Look {
        let mut room = [0; ROOM];
        let free = self.most().saturating_sub(self.came.len()).min(ROOM);
        if free == 0 {
            return Look::Nothing;
        }
        if self.came.try_reserve(free).is_err() {
            return Look::NoMemory;
        }
        match self.stream.read(&mut room[..free]) {
            Ok(0) => Look::End,
            Ok(count) => match self.came.extend_from_slice(&room[..count]) {
                Ok(()) => Look::Bytes,
                Err(_) => Look::NoMemory,
            },
            Err(e) => match e.kind() {
                ErrorKind::WouldBlock | ErrorKind::Interrupted => Look::Nothing,
                _ => Look::End,
            },
        }
    }

    /// Whether what came is a whole request, by all that it seems. Before, `seen` bytes were there.
    fn is_whole(&mut self, seen: usize) -> bool {
        if self.total.is_none() {
            self.total = seeming_length(&self.came, seen);
        }
        match self.total {
            Some(total) => self.came.len() >= total,
            None => false,
        }
    }

    /// Takes what has come, and gives whether it was anything.
    fn take(&mut self) -> bool {
        let before = self.came.len();
        for _ in 0..TURNS {
            let seen = self.came.len();
            match self.look() {
                Look::Bytes => {}
                Look::Nothing => break,
                Look::End => {
                    self.stage = Stage::Ended;
                    break;
                }
                Look::NoMemory => {
                    self.stage = Stage::Whole;
                    break;
                }
            }
            if self.is_whole(seen) {
                self.stage = Stage::Whole;
                break;
            }
        }
        self.came.len() > before
    }

    /// Counts the time that passed, in which something came or not.
    fn wait(&mut self, passed: Duration, came: bool) {
        self.quiet = if came {
            Duration::ZERO
        } else {
            self.quiet.saturating_add(passed)
        };
        self.waited = self.waited.saturating_add(passed);
        if self.quiet >= Duration::from_secs(CALL_LIMIT)
            || self.waited >= Duration::from_secs(CONNECTION_LIMIT)
        {
            self.stage = Stage::Late;
        }
    }

    /// Takes what has come since it was looked at, so long ago, and gives whether it was anything. While it waits for
    /// its turn no time counts.
    pub(crate) fn advance(&mut self, passed: Duration) -> bool {
        if self.stage != Stage::Waiting || self.is_stalled() {
            return false;
        }
        let came = self.take();
        if self.stage == Stage::Waiting {
            self.wait(passed, came);
        }
        came
    }

    /// Waits so long at most until something comes.
    pub(crate) fn rest(&mut self, longest: Duration) {
        if pause(&self.stream, longest).is_err() {
            self.stage = Stage::Ended;
        }
    }
}
