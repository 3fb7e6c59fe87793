use crate::connections::bench::{Bench, Way};
use crate::connections::serving::{found_with, reply_to, serve_door, written_next};
use serving_lines::{bytes_of, shown};
use std::alloc::{AllocError, Global};
use std::io;

/// Prints what was found in place of what is due, with the title of its case.
fn say<R: Print + AllocGlobal>(rt: &R, title: &str, found: &[u8], due: &[u8]) -> io::Result<()> {
    let found = shown(rt.alloc(), found)?;
    let due = shown(rt.alloc(), due)?;
    println!(rt; "{title}: {found} in place of {due}")
}

/// Counts what is due; what is not is printed with the title of its case.
fn count<R: Print + AllocGlobal>(
    rt: &R,
    bench: &mut Bench,
    found: &[u8],
    due: &[u8],
) -> io::Result<()> {
    if found == due {
        bench.due = bench.due.saturating_add(1);
        return Ok(());
    }
    say(rt, bench.title.as_str(), found, due)
}

/// The bytes that come on the one connection.
fn input_of(alloc: Global, bench: &Bench) -> Result<Vec<u8>, AllocError> {
    match bench.inputs.last() {
        Some(input) => input.to_vec(alloc),
        None => Ok(Vec::new(alloc)),
    }
}

/// One connection. Where the keeper that fails at one call fails now, it is to be said so, and the bytes come again.
fn judge_once<R: Print + AllocGlobal>(
    rt: &R,
    bench: &mut Bench,
    input: &[u8],
    due: &[u8],
) -> io::Result<()> {
    let faults = bench.store.faults();
    let mut reply = reply_to(rt.alloc(), bench, input)?;
    if bench.call.is_some() && bench.store.faults() > faults {
        let failed = bench.store_failed.to_vec(rt.alloc())?;
        count(rt, bench, &reply, &failed)?;
        reply = reply_to(rt.alloc(), bench, input)?;
    }
    count(rt, bench, &reply, due)
}

/// Connections on which the first bytes come, and then the end.
fn judge_fronts<R: Print + AllocGlobal>(
    rt: &R,
    bench: &mut Bench,
    input: &[u8],
    due: &[u8],
) -> io::Result<()> {
    for n in 0..input.len() {
        let reply = reply_to(rt.alloc(), bench, &input[..n])?;
        count(rt, bench, &reply, due)?;
    }
    Ok(())
}

/// What is due on a connection that takes so many bytes of a reply.
fn cut(alloc: Global, reply: &[u8]) -> Result<Vec<u8>, AllocError> {
    let mut due = Vec::from_slice(alloc, b"write fault".as_slice())?;
    if !reply.is_empty() {
        due.push(b' ')?;
        due.extend_from_slice(reply)?;
    }
    Ok(due)
}

/// Connections that take fewer bytes than the reply has.
fn judge_rooms<R: Print + AllocGlobal>(
    rt: &R,
    bench: &mut Bench,
    input: &[u8],
    due: &[u8],
) -> io::Result<()> {
    for n in 0..due.len() {
        let alloc = rt.alloc();
        let reply = found_with(alloc, bench, input, n, Vec::new(alloc))?.reply;
        let front = cut(alloc, &due[..n])?;
        count(rt, bench, &reply, &front)?;
    }
    Ok(())
}

/// Whether a connection of which a call failed went as it may: it was read in part, or a front of the reply written.
fn is_broken_off(alloc: Global, reply: &[u8], due: &[u8]) -> Result<bool, AllocError> {
    if reply == b"read fault".as_slice() {
        return Ok(true);
    }
    let whole = cut(alloc, due)?;
    let is_front = reply.len() < whole.len() && whole.starts_with(reply);
    Ok(is_front && reply.starts_with(b"write fault".as_slice()))
}

/// What is found where the calls fail one after the other, up to the first that is not made; the reply that is due
/// where all goes as it may.
fn found_by_calls(
    alloc: Global,
    bench: &mut Bench,
    input: &[u8],
    due: &[u8],
) -> Result<Vec<u8>, AllocError> {
    for call in 1..1000u64 {
        let mut failing = Vec::new(alloc);
        failing.push(call)?;
        let room = bench.outside.room;
        let found = found_with(alloc, bench, input, room, failing)?;
        if !found.failed || !is_broken_off(alloc, &found.reply, due)? {
            return Ok(found.reply);
        }
    }
    Ok(Vec::new(alloc))
}

/// What is due on a door or a connection.
fn judge_reply<R: Print + AllocGlobal>(rt: &R, bench: &mut Bench, due: &[u8]) -> io::Result<()> {
    let input = input_of(rt.alloc(), bench)?;
    match bench.way {
        Way::Once => judge_once(rt, bench, &input, due),
        Way::EachFront => judge_fronts(rt, bench, &input, due),
        Way::EachRoom => judge_rooms(rt, bench, &input, due),
        Way::EachCall => {
            let reply = found_by_calls(rt.alloc(), bench, &input, due)?;
            count(rt, bench, &reply, due)
        }
        Way::Door => {
            let written = written_next(rt.alloc(), bench)?;
            count(rt, bench, &written, due)
        }
    }
}

/// Judges a line that says what is due: `< REPLY`, or `taken N` of a door. Any other line is due nowhere.
pub fn judge<R: Print + AllocGlobal>(rt: &R, bench: &mut Bench, line: &str) -> io::Result<()> {
    if let Some(text) = line.strip_prefix("< ") {
        let due = bytes_of(rt.alloc(), text)?;
        return judge_reply(rt, bench, &due);
    }
    if let Some(due) = line.strip_prefix("taken ") {
        let taken = serve_door(rt.alloc(), bench)?;
        return count(rt, bench, taken.as_bytes(), due.as_bytes());
    }
    count(rt, bench, b"no form".as_slice(), line.as_bytes())
}
