use std::io;
use std::net::OpenStream;
use std::time::Duration;

/// Waits so long at most until something comes, none of which is taken. The stream does not block, neither before nor
/// afterwards.
pub(crate) fn pause<S: OpenStream>(stream: &S, longest: Duration) -> io::Result<()> {
    stream.set_nonblocking(false)?;
    stream.set_read_timeout(Some(longest))?;
    let mut room = [0; 1];
    let _ = stream.peek(&mut room);
    stream.set_nonblocking(true)
}
