//! Tests of the desk of cases and of its keepers, on files of commands and of connections. `desk_cases` alone puts
//! them to a keeper in memory, to the desk over HTTP and to databases, and prints how many replies are due and what
//! else holds. `desk_cases commands FILE` and `desk_cases connections FILE` do so with one file, over a keeper in
//! memory; `desk_cases connections FILE each` once for each call of the keeper, which fails; and `desk_cases times`
//! prints what a command takes with many cases.
#![tactic(auto)]

use database_cases::no_folder;
use memory_cases::{commands, connections};
use sqlite_keeper::SqlKeeper;
use std::rt::{Env, Files};
use std::{env, io};

/// All that is tested over a keeper in memory.
fn in_memory<R: Files + Print + AllocGlobal>(rt: &R) -> io::Result<()> {
    println!(rt; "commands, over a keeper in memory")?;
    commands::all(rt)?;
    println!(rt; "connections, over a keeper in memory")?;
    connections::all(rt)
}

/// All that is tested over databases whose files are in memory.
fn in_databases<R: Files + Print + AllocGlobal>(rt: &R) -> io::Result<()> {
    println!(rt; "databases")?;
    database_cases::all(rt)
}

/// A keeper of a file that is not there.
fn lost_keeper(rt: HostRuntime) -> io::Result<SqlKeeper> {
    let path = String::from_str(rt.alloc(), "no_such_folder/desk.sqlite")?;
    Ok(SqlKeeper::new(rt, path))
}

fn all(rt: &HostRuntime) -> io::Result<()> {
    in_memory(rt)?;
    in_databases(rt)?;
    no_folder(rt, lost_keeper(rt.clone()?)?)
}

/// The words behind the program's name.
fn words_of<R: Env + AllocGlobal>(rt: &R) -> io::Result<Vec<String>> {
    let mut words = Vec::new(rt.alloc());
    for word in env::args(rt)?.skip(1) {
        words.push(word)?;
    }
    Ok(words)
}

/// The word at the place, and none where there are fewer.
fn word_at(words: &[String], place: usize) -> &str {
    match words.get(place) {
        Some(word) => word.as_str(),
        None => "",
    }
}

/// Runs what the words ask for, and all where they ask for nothing of its own.
fn run(rt: &HostRuntime, words: &[String]) -> io::Result<()> {
    let file = word_at(words, 1);
    match (word_at(words, 0), words.len()) {
        ("times", 1) => commands::times(rt),
        ("commands", 2) => commands::replies_in(rt, file),
        ("connections", 2) => connections::replies_in(rt, file),
        ("connections", 3) => connections::replies_in_turn(rt, file),
        _ => all(rt),
    }
}

fn main(rt: HostRuntime) -> io::Result<()> {
    let words = words_of(&rt)?;
    run(&rt, &words)
}
