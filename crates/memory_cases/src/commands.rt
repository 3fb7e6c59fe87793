//! Files of commands, put to the cases of a keeper in memory.

mod timing;

ghost use Rattle.std.specs.Prelude.{IfOk};
ghost use Rattle.case_rules.specs.Docket.{IsDocket};

use case_keeper::MemKeeper;
use case_lines::{due_in, numbers_of};
use std::alloc::{AllocError, Global};
use std::rt::Files;
use std::{fs, io};
pub use timing::times;

/// A keeper without cases that fails at these calls.
fn failing(alloc: Global, calls: &str) -> Result<MemKeeper, AllocError>
    ensures { IfOk result (λ keeper. IsDocket keeper.cases) }
{
    let calls = numbers_of(alloc, calls)?;
    Ok(MemKeeper::failing(alloc, calls))
}

/// Takes a line that is no title, and gives how many replies are due.
fn take_line<R: Print + AllocGlobal>(
    rt: &R,
    keeper: &mut MemKeeper,
    title: &str,
    line: &str,
) -> io::Result<u64>
    requires { IsDocket keeper.old.cases }
    ensures { IsDocket keeper.new.cases }
{
    if line.is_empty() {
        return Ok(0);
    }
    let Some(calls) = line.strip_prefix("keeper") else {
        return due_in(rt, keeper, title, line);
    };
    *keeper = failing(rt.alloc(), calls)?;
    Ok(0)
}

/// How many commands of a text get the reply that is due.
fn due_in_text<R: Print + AllocGlobal>(
    rt: &R,
    keeper: &mut MemKeeper,
    text: &str,
) -> io::Result<u64>
    requires { IsDocket keeper.old.cases }
    ensures { IsDocket keeper.new.cases }
{
    let mut title = "";
    let mut due = 0u64;
    for line in text.lines() {
        if let Some(rest) = line.strip_prefix("## ") {
            title = rest;
        } else {
            due = due.saturating_add(take_line(rt, keeper, title, line)?);
        }
    }
    Ok(due)
}

/// How many commands of a text get the reply that is due from a new keeper.
fn due_from_new<R: Print + AllocGlobal>(rt: &R, text: &str) -> io::Result<u64> {
    let mut keeper = MemKeeper::new(rt.alloc());
    due_in_text(rt, &mut keeper, text)
}

/// Puts the commands of a file, and prints how many get the reply that is due. A line `## TITLE` begins a case, and a
/// line `keeper` with numbers a new keeper, which fails at these calls. Each other line is a command and behind ` > `
/// the reply that is due.
pub fn replies_in<R: Files + Print + AllocGlobal>(rt: &R, name: &str) -> io::Result<()> {
    let text = fs::read_to_string(rt, name)?;
    let due = due_from_new(rt, text.as_str())?;
    println!(rt; "{name}: {due} replies that are due")
}

/// All files of commands.
pub fn all<R: Files + Print + AllocGlobal>(rt: &R) -> io::Result<()> {
    replies_in(rt, "office.txt")?;
    replies_in(rt, "refusals.txt")?;
    replies_in(rt, "order.txt")?;
    replies_in(rt, "limits.txt")?;
    replies_in(rt, "faults.txt")
}
