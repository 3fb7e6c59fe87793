use crate::connections::bench::{Bench, want};
use desk_links::{DoorFault, Link, MemDoor, MemLink};
use desk_serving::Served;
use std::alloc::{AllocError, Global};
use std::mem;

/// How a connection went, and what was written.
#[derive(Drop)]
pub struct Found {
    /// The reply, or a word for how it ended otherwise, and what was written.
    pub reply: Vec<u8>,
    /// Whether a call of the link failed.
    pub failed: bool,
}

/// Whether a reply has this status.
fn has_status(alloc: Global, reply: &[u8], status: u16) -> Result<bool, AllocError> {
    let front = format!(in alloc; "HTTP/1.1 {status} ")?;
    Ok(reply.starts_with(front.as_bytes()))
}

/// A word and what was written.
fn with_word(alloc: Global, word: &str, written: &[u8]) -> Result<Vec<u8>, AllocError> {
    let mut reply = word.as_bytes().to_vec(alloc)?;
    if !written.is_empty() {
        reply.push(b' ')?;
        reply.extend_from_slice(written)?;
    }
    Ok(reply)
}

/// How a connection went, with what was written: a whole reply stands as it is.
fn reply_of(alloc: Global, said: Served, written: &[u8]) -> Result<Vec<u8>, AllocError> {
    match said {
        Served::Replied(status) => {
            if has_status(alloc, written, status)? {
                return written.to_vec(alloc);
            }
            with_word(alloc, "another status", written)
        }
        Served::Ended => with_word(alloc, "ended", written),
        Served::ReadFault => with_word(alloc, "read fault", written),
        Served::WriteFault => with_word(alloc, "write fault", written),
        Served::Memory => with_word(alloc, "no memory", written),
    }
}

/// What is found on a link.
fn found_on(alloc: Global, bench: &mut Bench, link: &mut MemLink) -> Result<Found, AllocError> {
    let said = bench.store.serve(alloc, &bench.desk, link, bench.day);
    let reply = reply_of(alloc, said, link.written())?;
    Ok(Found {
        reply,
        failed: link.faults() > 0,
    })
}

/// What is found where these bytes come on a link that takes so much and fails at these calls.
pub fn found_with(
    alloc: Global,
    bench: &mut Bench,
    input: &[u8],
    room: usize,
    failing: Vec<u64>,
) -> Result<Found, AllocError> {
    let input = input.to_vec(alloc)?;
    let pieces = bench.outside.pieces.to_vec(alloc)?;
    let mut link = MemLink::new(alloc, input, pieces, room, failing).map_err(want)?;
    found_on(alloc, bench, &mut link)
}

/// What is replied where these bytes come on a link as the lines say.
pub fn reply_to(alloc: Global, bench: &mut Bench, input: &[u8]) -> Result<Vec<u8>, AllocError> {
    let room = bench.outside.room;
    let failing = bench.outside.failing.to_vec(alloc)?;
    Ok(found_with(alloc, bench, input, room, failing)?.reply)
}

/// A door on which comes what the lines said.
fn door_of(alloc: Global, bench: &mut Bench) -> Result<MemDoor, AllocError> {
    let inputs = mem::replace(&mut bench.inputs, Vec::new(alloc));
    let pieces = bench.outside.pieces.to_vec(alloc)?;
    let failing = bench.outside.failing.to_vec(alloc)?;
    MemDoor::new(alloc, inputs, pieces, bench.outside.room, failing).map_err(want)
}

/// How serving a door went.
fn taken(alloc: Global, served: Result<u32, DoorFault>) -> Result<String, AllocError> {
    match served {
        Ok(count) => format!(in alloc; "{count}"),
        Err(DoorFault::Failed) => String::from_str(alloc, "door fault"),
        Err(DoorFault::Memory) => String::from_str(alloc, "no memory"),
    }
}

/// Serves the connections of the door, and says how that went.
pub fn serve_door(alloc: Global, bench: &mut Bench) -> Result<String, AllocError> {
    let mut door = match bench.door.take() {
        Some(door) => door,
        None => door_of(alloc, bench)?,
    };
    let served = bench
        .store
        .serve_door(alloc, &bench.desk, &mut door, bench.day, bench.most);
    bench.door = Some(door);
    taken(alloc, served)
}

/// What was written on the next connection of the door, or `nothing`.
pub fn written_next(alloc: Global, bench: &mut Bench) -> Result<Vec<u8>, AllocError> {
    let place = bench.looked_at;
    bench.looked_at = place.saturating_add(1);
    let written = match &bench.door {
        Some(door) => door.written(place),
        None => &[],
    };
    if written.is_empty() {
        return with_word(alloc, "nothing", written);
    }
    written.to_vec(alloc)
}
