//! Files of connections, served in memory over a desk.

mod bench;
mod judging;
mod serving;
mod store;

use crate::connections::bench::{Bench, ask, new_bench, set};
use crate::connections::judging::judge;
use std::rt::Files;
use std::{fs, io};

/// Takes a line of a file: a setting, what comes, or what is due then.
fn take<R: Print + AllocGlobal>(rt: &R, bench: &mut Bench, line: &str) -> io::Result<()> {
    if line.is_empty() || set(rt.alloc(), bench, line)? || ask(rt.alloc(), bench, line)? {
        return Ok(());
    }
    judge(rt, bench, line)
}

/// Serves what the lines say.
fn serve<R: Print + AllocGlobal>(rt: &R, bench: &mut Bench, text: &str) -> io::Result<()> {
    for line in text.lines() {
        take(rt, bench, line)?;
    }
    Ok(())
}

/// Serves what the lines say, over a keeper that fails at this call, where there is one.
fn served<R: Print + AllocGlobal>(rt: &R, text: &str, call: Option<u64>) -> io::Result<Bench> {
    let mut bench = new_bench(rt.alloc(), call)?;
    serve(rt, &mut bench, text)?;
    Ok(bench)
}

/// How many replies of a text are due.
fn due_in<R: Print + AllocGlobal>(rt: &R, text: &str) -> io::Result<u64> {
    let bench = served(rt, text, None)?;
    Ok(bench.due)
}

/// Prints how many replies of a file are due.
pub fn replies_in<R: Files + Print + AllocGlobal>(rt: &R, name: &str) -> io::Result<()> {
    let text = fs::read_to_string(rt, name)?;
    let due = due_in(rt, text.as_str())?;
    println!(rt; "{name}: {due} replies that are due")
}

/// How many replies were due on a bench; nothing where its store never failed.
fn due_with_fault(bench: Bench) -> Option<u64> {
    match bench.store.faults() {
        0 => None,
        _ => Some(bench.due),
    }
}

/// How many replies of a text are due where the keeper fails at this call; nothing where it is not called so often.
fn due_failing<R: Print + AllocGlobal>(rt: &R, text: &str, call: u64) -> io::Result<Option<u64>> {
    let bench = served(rt, text, Some(call))?;
    Ok(due_with_fault(bench))
}

/// How many are due where the keeper fails at its first call, then at its second, and so on up to the last; and the
/// number of the last.
fn due_in_turn<R: Print + AllocGlobal>(rt: &R, text: &str) -> io::Result<(u64, u64)> {
    let mut all = 0u64;
    let mut last = 0u64;
    for call in 1..1000u64 {
        let Some(due) = due_failing(rt, text, call)? else {
            break;
        };
        all = all.saturating_add(due);
        last = call;
    }
    Ok((all, last))
}

/// Prints how many are due where the keeper fails at its first call, then at its second, and so on up to the last.
pub fn replies_in_turn<R: Files + Print + AllocGlobal>(rt: &R, name: &str) -> io::Result<()> {
    let text = fs::read_to_string(rt, name)?;
    let (due, last) = due_in_turn(rt, text.as_str())?;
    println!(rt; "{name}: {due} replies that are due where one of {last} calls fails")
}

/// All files of connections, of which the first also over a keeper that fails.
pub fn all<R: Files + Print + AllocGlobal>(rt: &R) -> io::Result<()> {
    replies_in(rt, "day.txt")?;
    replies_in_turn(rt, "day.txt")?;
    replies_in(rt, "rules.txt")?;
    replies_in(rt, "answers.txt")?;
    replies_in(rt, "requests.txt")?;
    replies_in(rt, "links.txt")
}
