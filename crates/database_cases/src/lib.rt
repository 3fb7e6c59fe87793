//! The keeper in SQLite over files in memory, for the program that tests the desk of cases: of files of commands how
//! many get the reply that is due, and of what no file of commands says whether it holds.
#![tactic(auto)]

mod alike;
mod crashing;
mod late;
mod lines;
mod stumbling;

use crate::alike::{answers_as_memory, has_after, is_left, refusals_after};
use crate::crashing::{Run, stops_of};
use crate::late::asks_again;
pub use crate::late::no_folder;
use crate::lines::{due_in_text, due_over_http};
use crate::stumbling::{opens_anew, stumbles_of};
use failing_disk::Stumbling;
use filed_keepers::{Faulty, FileKeeper, Filed, LateOne, SlowOpener};
use sqlite::FileStore;
use sqlite_disk::{Fuse, Memory};
use sqlite_keeper::{LateKeeper, OpenKeeper};
use std::rt::Files;
use std::{fs, io};

fn text<R: Files + AllocGlobal>(rt: &R, name: &str) -> io::Result<String> {
    fs::read_to_string(rt, name)
}

fn say<R: Print>(rt: &R, what: &str, holds: bool) -> io::Result<()> {
    println!(rt; "{what}: {holds}")
}

/// Prints how many commands of a file get the reply that is due.
fn replies<R: Files + Print + AllocGlobal, K: FileKeeper>(
    rt: &R,
    name: &str,
    reopens: bool,
) -> io::Result<()> {
    let commands = text(rt, name)?;
    let due = due_in_text::<R, K>(rt, commands.as_str(), reopens)?;
    let how = if reopens {
        " where the files are opened anew before each"
    } else {
        ""
    };
    println!(rt; "{name}: {due} replies that are due{how}")
}

/// Prints how many requests of a day get the reply that is due.
fn replies_over_http<R: Files + Print + AllocGlobal, K: FileKeeper>(rt: &R) -> io::Result<()> {
    let day = text(rt, "day.txt")?;
    let due = due_over_http::<R, K>(rt, day.as_str())?;
    println!(rt; "day.txt: {due} replies over HTTP that are due")
}

fn all_replies<R: Files + Print + AllocGlobal, K: FileKeeper>(rt: &R) -> io::Result<()> {
    replies::<R, K>(rt, "office.txt", false)?;
    replies::<R, K>(rt, "office.txt", true)?;
    replies::<R, K>(rt, "refusals.txt", false)?;
    replies::<R, K>(rt, "order.txt", false)?;
    replies::<R, K>(rt, "limits.txt", false)?;
    replies::<R, K>(rt, "version_1.txt", false)?;
    replies::<R, K>(rt, "version_1.txt", true)?;
    replies::<R, K>(rt, "version_2.txt", false)?;
    replies::<R, K>(rt, "version_2.txt", true)?;
    replies::<R, K>(rt, "inconsistent.txt", false)?;
    replies::<R, K>(rt, "unread.txt", false)?;
    replies::<R, K>(rt, "other_versions.txt", false)?;
    replies::<R, K>(rt, "changes.txt", false)?;
    replies::<R, K>(rt, "like_version_1.txt", false)?;
    replies::<R, K>(rt, "odd_bytes.txt", false)?;
    replies_over_http::<R, K>(rt)
}

fn is_alike<R: Files + Print + AllocGlobal, K: FileKeeper>(
    rt: &R,
    commands: &str,
    questions: &str,
) -> io::Result<()> {
    let holds = answers_as_memory::<K>(rt.alloc(), commands, questions)?;
    say(
        rt,
        "answers as memory does, also once the files are opened anew",
        holds,
    )
}

fn refuses_unfit<R: Files + Print + AllocGlobal, K: FileKeeper>(
    rt: &R,
    commands: &str,
    questions: &str,
) -> io::Result<()> {
    let unfit = text(rt, "unfit.txt")?;
    let refused = refusals_after::<K>(rt.alloc(), commands, unfit.as_str(), questions)?;
    println!(rt; "unfit.txt: {refused} changes that do not fit are refused, and change nothing")
}

fn is_asked_again<R: Files + Print + AllocGlobal, K: LateOne>(
    rt: &R,
    commands: &str,
    questions: &str,
) -> io::Result<()> {
    let holds = asks_again::<K>(rt.alloc(), commands, questions)?;
    say(rt, "asks again for a connection that is refused", holds)
}

fn gives_odd_back<R: Files + Print + AllocGlobal, K: FileKeeper>(rt: &R) -> io::Result<()> {
    let odd = text(rt, "odd_bytes.txt")?;
    let holds = answers_as_memory::<K>(rt.alloc(), odd.as_str(), odd.as_str())?;
    say(rt, "gives odd bytes back as they were", holds)
}

fn leaves_other<R: Files + Print + AllocGlobal, K: FileKeeper>(rt: &R) -> io::Result<()> {
    let other = text(rt, "version_3.sql")?;
    let holds = is_left::<K>(rt.alloc(), other.as_str())?;
    say(rt, "leaves a database of another version as it was", holds)
}

/// Prints what holds of databases beside memory.
fn all_alike<R: Files + Print + AllocGlobal, K: FileKeeper, L: LateOne>(
    rt: &R,
    commands: &str,
    questions: &str,
) -> io::Result<()> {
    is_alike::<R, K>(rt, commands, questions)?;
    refuses_unfit::<R, K>(rt, commands, questions)?;
    is_asked_again::<R, L>(rt, commands, questions)?;
    gives_odd_back::<R, K>(rt)?;
    leaves_other::<R, K>(rt)
}

fn has_stops(stops: Option<u64>, least: u64) -> bool {
    match stops {
        Some(count) => count >= least,
        None => false,
    }
}

/// Prints whether what was told as kept is there where files stop. Each of the nine changes is at least one write and
/// one sync of the log, so that is to stop at 18 places at least.
fn all_crashes<R: Files + Print + AllocGlobal, K: FileKeeper>(
    rt: &R,
    commands: &str,
    questions: &str,
) -> io::Result<()> {
    let run = Run {
        statements: "",
        like_these: "",
        commands,
        questions,
    };
    let stops = stops_of::<K>(rt.alloc(), run, true, 10_000)?;
    say(
        rt,
        "has what was told as kept, or one change more, where the log stops at any call",
        has_stops(stops, 18),
    )?;
    let stops = stops_of::<K>(rt.alloc(), run, false, 100)?;
    say(
        rt,
        "has it where the database file stops",
        has_stops(stops, 0),
    )
}

/// Prints whether what was told as kept is there where one call of a file fails, whichever it is, and all others are
/// done: of so many calls of the log, and of so many of the database file.
fn all_stumbles<R: Print + AllocGlobal, K: FileKeeper>(
    rt: &R,
    run: Run<'_>,
    is_done: bool,
    how: &str,
) -> io::Result<()> {
    let of_log = stumbles_of::<K>(rt.alloc(), run, true, is_done, 200)?;
    let of_file = stumbles_of::<K>(rt.alloc(), run, false, is_done, 100)?;
    let holds = has_stops(of_log, 18) && has_stops(of_file, 0);
    println!(rt;
        "goes on from what was told as kept, or one change more, where any one call {how}: {holds}"
    )
}

/// Prints whether that holds where the call is not done, and where it is done and told as failed; and whether a keeper
/// opens its database anew where such a call closed it.
fn both_stumbles<R: Print + AllocGlobal, K: FileKeeper, L: LateOne>(
    rt: &R,
    commands: &str,
    questions: &str,
) -> io::Result<()> {
    let run = Run {
        statements: "",
        like_these: "",
        commands,
        questions,
    };
    all_stumbles::<R, K>(rt, run, false, "fails")?;
    all_stumbles::<R, K>(rt, run, true, "is told as failed")?;
    let holds = opens_anew::<L>(rt.alloc(), run, 200)?;
    say(
        rt,
        "fails at most once where any one call of the log fails",
        holds,
    )
}

/// Prints whether a database that these statements make has the cases that these commands make.
fn has_cases<R: Files + Print + AllocGlobal, K: FileKeeper>(
    rt: &R,
    version: u8,
    statements: &str,
    like_these: &str,
    questions: &str,
) -> io::Result<()> {
    let is_alike = answers_as_memory::<K>(rt.alloc(), like_these, questions)?;
    let holds = is_alike && has_after::<K>(rt.alloc(), statements, like_these, questions)?;
    println!(rt; "has the cases of version {version} byte for byte: {holds}")
}

/// Prints whether a database that these statements make has its cases where the log stops while its tables are made
/// those of today. That is at least one write and one sync, so it is to stop at two places at least.
fn has_raised<R: Files + Print + AllocGlobal, K: FileKeeper>(
    rt: &R,
    version: u8,
    statements: &str,
    like_these: &str,
    questions: &str,
) -> io::Result<()> {
    let run = Run {
        statements,
        like_these,
        commands: "110 1 rex list",
        questions,
    };
    let stops = stops_of::<K>(rt.alloc(), run, true, 10_000)?;
    let holds = has_stops(stops, 2);
    println!(rt;
        "has the cases of version {version} where the log stops while they are taken over: {holds}"
    )
}

/// Prints whether a database of version 1 has its cases, also where the log stops while they are taken over.
fn all_raised<R: Files + Print + AllocGlobal, K: FileKeeper>(
    rt: &R,
    questions: &str,
) -> io::Result<()> {
    let statements = text(rt, "version_1.sql")?;
    let like = text(rt, "like_version_1.txt")?;
    has_cases::<R, K>(rt, 1, statements.as_str(), like.as_str(), questions)?;
    has_raised::<R, K>(rt, 1, statements.as_str(), like.as_str(), questions)
}

/// Prints whether a database of another program has its cases, and with the states of an earlier program beside them,
/// also where the log stops while these are let go.
fn all_taken_over<R: Files + Print + AllocGlobal, K: FileKeeper>(rt: &R) -> io::Result<()> {
    let mut statements = text(rt, "version_2.sql")?;
    let like = text(rt, "like_version_2.txt")?;
    let questions = text(rt, "version_2_questions.txt")?;
    has_cases::<R, K>(
        rt,
        2,
        statements.as_str(),
        like.as_str(),
        questions.as_str(),
    )?;
    let states = text(rt, "states.sql")?;
    statements.push_str(states.as_str())?;
    has_raised::<R, K>(
        rt,
        2,
        statements.as_str(),
        like.as_str(),
        questions.as_str(),
    )
}

/// Prints what holds of databases once these commands were put to them.
fn all_behind<R: Files + Print + AllocGlobal, K: FileKeeper, L: LateOne>(
    rt: &R,
    commands: &str,
    questions: &str,
) -> io::Result<()> {
    all_alike::<R, K, L>(rt, commands, questions)?;
    all_crashes::<R, K>(rt, commands, questions)?;
    both_stumbles::<R, K, L>(rt, commands, questions)?;
    all_raised::<R, K>(rt, questions)?;
    all_taken_over::<R, K>(rt)
}

/// Over keepers of whatever kind, of which the second opens its database late.
fn over<R: Files + Print + AllocGlobal, K: FileKeeper, L: LateOne>(rt: &R) -> io::Result<()> {
    all_replies::<R, K>(rt)?;
    let commands = text(rt, "changes.txt")?;
    let questions = text(rt, "questions.txt")?;
    all_behind::<R, K, L>(rt, commands.as_str(), questions.as_str())
}

/// Over whatever store: what hands on a keeper over its store as a keeper is dear to prove.
fn over_stores<R: Files + Print + AllocGlobal, S: Filed>(rt: &R) -> io::Result<()> {
    over::<R, OpenKeeper<S>, LateKeeper<SlowOpener<S>>>(rt)
}

/// Over files on disks of whatever kind: a call that names what
/// holds a file at once with the store of files is dear to prove.
fn over_files<R: Files + Print + AllocGlobal, D: Faulty>(rt: &R) -> io::Result<()> {
    over_stores::<R, FileStore<D>>(rt)
}

/// All that is tested of databases over disks that may fail.
pub fn all<R: Files + Print + AllocGlobal>(rt: &R) -> io::Result<()> {
    over_files::<R, Stumbling<Fuse<Memory>>>(rt)
}
