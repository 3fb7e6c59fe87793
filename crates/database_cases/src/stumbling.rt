//! Files of which each call in turn fails, once, and all others are done.

ghost use Rattle.std.specs.Prelude.{IfOk};
ghost use Rattle.desk_serving.specs.Obeying.{TellsDocket};

use crate::crashing::{Run, done_of, is_told_after};
use case_keeper::Keeper;
use failing_disk::Stumble;
use filed_keepers::{Faults, FileKeeper, LateOne, stumbling, told};
use std::alloc::Global;
use std::io;

/// How a run ended.
#[derive(Clone, Copy)]
enum End {
    /// No command was told as failed.
    Unhurt,
    /// The database then had what was told as done, or that with one command more, and went on from there.
    Mended,
    /// It did not.
    Lost,
}

/// How many commands a keeper has carried out that tells this: so many, or one more.
fn kept_of(alloc: Global, run: Run<'_>, done: usize, found: &str) -> io::Result<Option<usize>> {
    if is_told_after(alloc, run, done, found)? {
        return Ok(Some(done));
    }
    let more = done.saturating_add(1);
    if is_told_after(alloc, run, more, found)? {
        Ok(Some(more))
    } else {
        Ok(None)
    }
}

/// What stands behind so many lines of a text.
fn behind(text: &str, lines: usize) -> &str {
    let mut rest = text;
    for _ in 0..lines {
        match rest.split_once("\n") {
            Some((_, behind)) => rest = behind,
            None => return "",
        }
    }
    rest
}

/// Whether all commands behind so many are told as done.
fn does_rest<K: Keeper>(alloc: Global, keeper: &mut K, commands: &str, done: usize) -> bool
    requires { TellsDocket (K.told keeper.old) }
    ensures { TellsDocket (K.told keeper.new) }
{
    let rest = behind(commands, done);
    done_of(alloc, keeper, rest, usize::MAX) == rest.lines().count()
}

/// How a run ends of which so many commands were told as done before one was not.
fn end_behind<K: Keeper>(
    alloc: Global,
    keeper: &mut K,
    run: Run<'_>,
    done: usize,
) -> io::Result<End>
    requires { TellsDocket (K.told keeper.old) }
    ensures { TellsDocket (K.told keeper.new) }
{
    if done == run.commands.lines().count() {
        return Ok(End::Unhurt);
    }
    let found = told(alloc, keeper, run.questions)?;
    match kept_of(alloc, run, done, found.as_str())? {
        Some(kept) if does_rest(alloc, keeper, run.commands, kept) => Ok(End::Mended),
        _ => Ok(End::Lost),
    }
}

/// The keeper over its files opened again, where a failure closed them; then the machine comes back in between.
fn open_again<K: FileKeeper>(alloc: Global, keeper: K) -> io::Result<K>
    requires { TellsDocket (K.told keeper) }
    ensures { IfOk result (λ next. TellsDocket (K.told next)) }
{
    let mut keeper = keeper;
    if keeper.is_shut() {
        keeper.reopened(alloc, true)
    } else {
        Ok(keeper)
    }
}

/// Whether a keeper has all commands of a run, once the machine has come back and its files are opened again.
fn has_all<K: FileKeeper>(alloc: Global, keeper: K, run: Run<'_>) -> io::Result<bool> {
    let mut keeper = keeper.reopened(alloc, true)?;
    let found = told(alloc, &mut keeper, run.questions)?;
    is_told_after(alloc, run, usize::MAX, found.as_str())
}

/// How a run ends with a keeper that was given all commands up to the first that was not told as done.
fn end_with<K: FileKeeper>(alloc: Global, keeper: K, run: Run<'_>, done: usize) -> io::Result<End>
    requires { TellsDocket (K.told keeper) }
{
    let mut keeper = open_again(alloc, keeper)?;
    let end = end_behind(alloc, &mut keeper, run, done)?;
    if has_all(alloc, keeper, run)? {
        Ok(end)
    } else {
        Ok(End::Lost)
    }
}

/// How a run ends whose files fail so.
fn end_at<K: FileKeeper>(alloc: Global, run: Run<'_>, faults: Faults) -> io::Result<End> {
    let mut keeper = K::blank(alloc, faults)?;
    let done = done_of(alloc, &mut keeper, run.commands, usize::MAX);
    end_with(alloc, keeper, run, done)
}

/// At how many calls of the log, or of the database file, a command is told as failed: the first of so many calls
/// fails, then the second and so on, and each other is done. Nothing where a database then has neither what was told as
/// done nor that with one command more, or does not go on from there, or where the machine comes back after all has not
/// each command.
pub fn stumbles_of<K: FileKeeper>(
    alloc: Global,
    run: Run<'_>,
    of_log: bool,
    is_done: bool,
    most: u64,
) -> io::Result<Option<u64>> {
    let mut stumbles = 0u64;
    for calls in 0..most {
        match end_at::<K>(alloc, run, stumbling(of_log, Stumble { calls, is_done }))? {
            End::Unhurt => {}
            End::Mended => stumbles = stumbles.saturating_add(1),
            End::Lost => return Ok(None),
        }
    }
    Ok(Some(stumbles))
}

/// Whether a keeper fails at most once where one call of the log fails. The commands are put up to the first that is
/// not told as done, and then it is asked.
fn fails_once<K: LateOne>(alloc: Global, run: Run<'_>, calls: u64) -> io::Result<bool> {
    let is_done = false;
    let mut keeper = K::late(alloc, 0, stumbling(true, Stumble { calls, is_done }))?;
    done_of(alloc, &mut keeper, run.commands, usize::MAX);
    told(alloc, &mut keeper, run.questions)?;
    Ok(keeper.faults() <= 1)
}

/// Whether a keeper that opens its database late fails at most once, whichever of so many calls of the log fails: its
/// next call opens the database anew where that closed it.
pub fn opens_anew<K: LateOne>(alloc: Global, run: Run<'_>, most: u64) -> io::Result<bool> {
    for calls in 0..most {
        if !fails_once::<K>(alloc, run, calls)? {
            return Ok(false);
        }
    }
    Ok(true)
}
