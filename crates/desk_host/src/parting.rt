use crate::pause::pause;
use std::io;
use std::io::{ErrorKind, Read};
use std::net::{OpenStream, Shutdown};
use std::time::Duration;

/// The longest that a peer says nothing behind its reply, in milliseconds.
const LINGER: u64 = 200;

/// The longest that it is listened to behind its reply, in milliseconds.
const LINGER_LIMIT: u64 = 12_800;

/// How often something is taken from it at once.
const TURNS: usize = 16;

/// A connection whose reply was written. What its peer still sends is taken and forgotten, so that the reply is not
/// lost to it.
#[derive(Drop)]
pub(crate) struct Parting<S> {
    stream: S,
    waited: Duration,
    quiet: Duration,
}

/// Takes some of what a peer still sends. None where nothing came, and false where it hung up.
fn taken<S: Read>(stream: &mut S) -> Option<bool> {
    let mut room = [0; 4096];
    match stream.read(&mut room) {
        Ok(count) => Some(count > 0),
        Err(e) => match e.kind() {
            ErrorKind::WouldBlock | ErrorKind::Interrupted => None,
            _ => Some(false),
        },
    }
}

/// Tells the peer that no more comes.
fn told<S: OpenStream>(stream: &S) -> io::Result<()> {
    stream.shutdown(Shutdown::Write)?;
    stream.set_nonblocking(true)
}

impl<S: Read + OpenStream + Drop> Parting<S> {
    /// Tells the peer that no more comes. None where it is gone.
    pub(crate) fn new(stream: S) -> Option<Self> {
        match told(&stream) {
            Ok(()) => Some(Parting {
                stream,
                waited: Duration::ZERO,
                quiet: Duration::ZERO,
            }),
            Err(_) => None,
        }
    }

    /// Waits so long at most until something comes. One for which that fails is gone, which is seen at the next look.
    pub(crate) fn rest(&self, longest: Duration) {
        let _ = pause(&self.stream, longest);
    }

    /// Takes what has come in the time that passed, and gives whether it is listened to any longer.
    pub(crate) fn advance(&mut self, passed: Duration) -> bool {
        self.waited = self.waited.saturating_add(passed);
        self.quiet = self.quiet.saturating_add(passed);
        for _ in 0..TURNS {
            match taken(&mut self.stream) {
                Some(true) => self.quiet = Duration::ZERO,
                Some(false) => return false,
                None => break,
            }
        }
        self.quiet < Duration::from_millis(LINGER)
            && self.waited < Duration::from_millis(LINGER_LIMIT)
    }
}
