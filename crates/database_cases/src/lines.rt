//! Files of commands and of connections, put to a database.

ghost use Rattle.std.specs.Prelude.{IfOk};
ghost use Rattle.desk_serving.specs.Obeying.{TellsDocket};

use case_keeper::Keeper;
use case_lines::due_in;
use desk_links::{FixedClock, MemLink};
use desk_serving::{Desk, serve_one};
use filed_keepers::{FileKeeper, LASTING};
use serving_lines::{FirstByte, bytes_of, desk};
use std::alloc::Global;
use std::rt::Files;
use std::{fs, io};
use vet_base::Memory;

/// The keeper once the statements of a file have run.
fn after_file<R: Files + AllocGlobal, K: FileKeeper>(rt: &R, keeper: K, name: &str) -> io::Result<K>
    ensures { IfOk result (λ next. TellsDocket (K.told next)) }
{
    let statements = fs::read_to_string(rt, name)?;
    keeper.after(statements.as_str())
}

/// A keeper over a database of which there is the file.
fn over_file<R: Files + AllocGlobal, K: FileKeeper>(rt: &R, name: &str) -> io::Result<K>
    ensures { IfOk result (λ next. TellsDocket (K.told next)) }
{
    let bytes = fs::read(rt, name)?;
    K::of_bytes(rt.alloc(), bytes.as_slice())
}

/// Whether a line is a command.
fn is_command(line: &str) -> bool {
    line != "keeper" && line != "again" && !line.starts_with("sql ") && !line.starts_with("file ")
}

/// The keeper once it is as a line says that is no command: a new one, one over a file, one behind the statements of a
/// file, or the same over its files opened anew.
fn set<R: Files + AllocGlobal, K: FileKeeper>(rt: &R, keeper: K, line: &str) -> io::Result<K>
    ensures { IfOk result (λ next. TellsDocket (K.told next)) }
{
    if line == "keeper" {
        return K::blank(rt.alloc(), LASTING);
    }
    if let Some(name) = line.strip_prefix("file ") {
        return over_file(rt, name);
    }
    match line.strip_prefix("sql ") {
        Some(name) => after_file(rt, keeper, name),
        None => keeper.reopened(rt.alloc(), false),
    }
}

/// The keeper to which a command is put: the same, or over its files opened anew.
fn before_command<K: FileKeeper>(alloc: Global, keeper: K, reopens: bool) -> io::Result<K>
    requires { TellsDocket (K.told keeper) }
    ensures { IfOk result (λ next. TellsDocket (K.told next)) }
{
    if reopens {
        keeper.reopened(alloc, false)
    } else {
        Ok(keeper)
    }
}

/// Puts a command, and gives how many replies to it are due.
fn due_to<R: Print + AllocGlobal, K: FileKeeper>(
    rt: &R,
    keeper: K,
    title: &str,
    line: &str,
) -> io::Result<(K, u64)>
    requires { TellsDocket (K.told keeper) }
    ensures { IfOk result (λ taken. TellsDocket (K.told taken.0)) }
{
    let mut keeper = keeper;
    let due = due_in(rt, &mut keeper, title, line)?;
    Ok((keeper, due))
}

/// Takes a line: what is done to the database, or a command. Gives how many replies are due.
fn take_line<R: Files + Print + AllocGlobal, K: FileKeeper>(
    rt: &R,
    keeper: K,
    title: &str,
    line: &str,
    reopens: bool,
) -> io::Result<(K, u64)>
    requires { TellsDocket (K.told keeper) }
    ensures { IfOk result (λ taken. TellsDocket (K.told taken.0)) }
{
    if line.is_empty() {
        return Ok((keeper, 0));
    }
    if is_command(line) {
        let keeper = before_command(rt.alloc(), keeper, reopens)?;
        return due_to(rt, keeper, title, line);
    }
    let keeper = set(rt, keeper, line)?;
    Ok((keeper, 0))
}

/// How many commands of a text get the reply that is due. A line `## TITLE` begins a case, `keeper` a new database,
/// and `file FILE` one that is there; `sql FILE` runs the statements of a file, and `again` closes the files and opens
/// them again, which is also done before each command where `reopens`. Each other line is a command and behind ` > `
/// the reply that is due.
pub fn due_in_text<R: Files + Print + AllocGlobal, K: FileKeeper>(
    rt: &R,
    text: &str,
    reopens: bool,
) -> io::Result<u64> {
    let mut keeper = K::blank(rt.alloc(), LASTING)?;
    let mut title = "";
    let mut due = 0u64;
    for line in text.lines() {
        if let Some(rest) = line.strip_prefix("## ") {
            title = rest;
        } else {
            let (next, count) = take_line(rt, keeper, title, line, reopens)?;
            keeper = next;
            due = due.saturating_add(count);
        }
    }
    Ok(due)
}

/// A link on which these bytes come.
fn link_of(alloc: Global, bytes: &str) -> Result<MemLink, Memory> {
    let come = bytes_of(alloc, bytes)?;
    MemLink::new(alloc, come, Vec::new(alloc), 4096, Vec::new(alloc))
}

/// Serves a link on this day.
fn serve<K: Keeper>(
    alloc: Global,
    desk: &Desk<FirstByte>,
    keeper: &mut K,
    day: u32,
    link: &mut MemLink,
)
    requires { TellsDocket (K.told keeper.old) }
    ensures { TellsDocket (K.told keeper.new) }
{
    let mut clock = FixedClock::new(day);
    serve_one(alloc, desk, keeper, link, &mut clock);
}

/// Whether what is written on a link is due.
fn is_written(alloc: Global, link: &MemLink, due: &str) -> Result<bool, Memory> {
    let due = bytes_of(alloc, due)?;
    Ok(link.written() == due.as_slice())
}

/// Whether the bytes of a connection, which comes on this day under this edition, get the reply that is due.
fn is_due<K: Keeper>(
    alloc: Global,
    keeper: &mut K,
    when: (u32, u8),
    bytes: &str,
    due: &str,
) -> Result<bool, Memory>
    requires { TellsDocket (K.told keeper.old) }
    ensures { TellsDocket (K.told keeper.new) }
{
    let (day, edition) = when;
    let desk = desk(alloc, edition)?;
    let mut link = link_of(alloc, bytes)?;
    serve(alloc, &desk, keeper, day, &mut link);
    is_written(alloc, &link, due)
}

/// Whether a connection gets the reply that is due; another one is told.
fn is_answered<R: Print + AllocGlobal, K: Keeper>(
    rt: &R,
    keeper: &mut K,
    when: (u32, u8),
    come: &str,
    reply: &str,
) -> io::Result<bool>
    requires { TellsDocket (K.told keeper.old) }
    ensures { TellsDocket (K.told keeper.new) }
{
    let is_due = matches!(is_due(rt.alloc(), keeper, when, come, reply), Ok(true));
    if !is_due {
        println!(rt; "{come}: not {reply}")?;
    }
    Ok(is_due)
}

/// How many connections of a text get the reply that is due of a keeper; another one is told.
fn due_with<R: Print + AllocGlobal, K: Keeper>(
    rt: &R,
    keeper: &mut K,
    text: &str,
) -> io::Result<u64>
    requires { TellsDocket (K.told keeper.old) }
    ensures { TellsDocket (K.told keeper.new) }
{
    let (mut day, mut edition, mut due) = (0u32, 0u8, 0u64);
    let mut come = "";
    for line in text.lines() {
        if let Some(bytes) = line.strip_prefix("> ") {
            come = bytes;
        } else if let Some(reply) = line.strip_prefix("< ") {
            if is_answered(rt, keeper, (day, edition), come, reply)? {
                due = due.saturating_add(1);
            }
        } else if let Some(number) = line.strip_prefix("day ") {
            day = number.parse::<u32>().unwrap_or(0);
        } else if let Some(number) = line.strip_prefix("edition ") {
            edition = number.parse::<u8>().unwrap_or(0);
        }
    }
    Ok(due)
}

/// How many connections of a text get the reply that is due; another one is told. A line `day N` or `edition N` says
/// when what follows comes; behind `> ` stand the bytes of a connection, and behind `< ` its reply.
pub fn due_over_http<R: Print + AllocGlobal, K: FileKeeper>(rt: &R, text: &str) -> io::Result<u64> {
    let mut keeper = K::blank(rt.alloc(), LASTING)?;
    due_with(rt, &mut keeper, text)
}
