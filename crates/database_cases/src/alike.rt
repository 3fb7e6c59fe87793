//! What a database keeps beside what is kept in memory.

ghost use Rattle.desk_serving.specs.Obeying.{TellsDocket};

use crate::late::fails_twice;
use case_keeper::Keeper;
use case_lines::change_of;
use filed_keepers::{FileKeeper, LASTING, story, tells, tells_end, told_by_memory};
use std::alloc::Global;
use std::io;

/// Whether a story ends with what the keeper tells, with no fault.
fn tells_end_well<K: Keeper>(
    alloc: Global,
    keeper: &mut K,
    story: &str,
    questions: &str,
) -> io::Result<bool>
    requires { TellsDocket (K.told keeper.old) }
    ensures { TellsDocket (K.told keeper.new) }
{
    let is_told = tells_end(alloc, keeper, story, questions)?;
    Ok(is_told && keeper.faults() == 0)
}

/// Whether a story ends with what the keeper over the same files, opened anew, tells with no fault.
fn tells_anew<K: FileKeeper>(
    alloc: Global,
    keeper: K,
    story: &str,
    questions: &str,
) -> io::Result<bool> {
    let mut keeper = keeper.reopened(alloc, false)?;
    tells_end_well(alloc, &mut keeper, story, questions)
}

/// Whether an empty database tells after each command what is due, also once its files are opened anew.
fn tells_also_anew<K: FileKeeper>(
    alloc: Global,
    due: &str,
    commands: &str,
    questions: &str,
) -> io::Result<bool> {
    let mut keeper = K::blank(alloc, LASTING)?;
    let is_told = tells(alloc, &mut keeper, due, commands, questions)?;
    let again = tells_anew(alloc, keeper, due, questions)?;
    Ok(is_told && again)
}

/// Whether an empty database tells after each command what memory does, also once its files are opened anew.
pub fn answers_as_memory<K: FileKeeper>(
    alloc: Global,
    commands: &str,
    questions: &str,
) -> io::Result<bool> {
    let due = told_by_memory(alloc, commands, questions)?;
    tells_also_anew::<K>(alloc, due.as_str(), commands, questions)
}

/// Whether a story ends with what the keeper over the same files, opened anew, tells with no fault, and once more.
fn tells_anew_twice<K: FileKeeper>(
    alloc: Global,
    keeper: K,
    story: &str,
    questions: &str,
) -> io::Result<bool> {
    let mut keeper = keeper.reopened(alloc, false)?;
    let first = tells_end_well(alloc, &mut keeper, story, questions)?;
    let again = tells_anew(alloc, keeper, story, questions)?;
    Ok(first && again)
}

/// Whether a database tells once these statements have run what is due, where the files are opened anew, and once
/// more.
fn has_due_after<K: FileKeeper>(
    alloc: Global,
    statements: &str,
    due: &str,
    questions: &str,
) -> io::Result<bool> {
    let keeper = K::blank(alloc, LASTING)?.after(statements)?;
    tells_anew_twice(alloc, keeper, due, questions)
}

/// Whether a database tells once these statements have run what memory does after the commands, where the files are
/// opened anew, and once more.
pub fn has_after<K: FileKeeper>(
    alloc: Global,
    statements: &str,
    commands: &str,
    questions: &str,
) -> io::Result<bool> {
    let due = told_by_memory(alloc, commands, questions)?;
    has_due_after::<K>(alloc, statements, due.as_str(), questions)
}

/// Whether the database refuses the change that a command makes where it fits, with one fault more.
fn refuses<K: FileKeeper>(alloc: Global, keeper: &mut K, command: &str) -> bool
    requires { TellsDocket (K.told keeper.old) }
    ensures { TellsDocket (K.told keeper.new) }
{
    match change_of(alloc, command) {
        Ok(Some(change)) => keeper.refuses(alloc, &change),
        _ => false,
    }
}

/// Whether the database refuses the change that a command makes where it fits, and then tells what a story ends with.
fn is_left_by<K: FileKeeper>(
    alloc: Global,
    keeper: &mut K,
    command: &str,
    story: &str,
    questions: &str,
) -> io::Result<bool>
    requires { TellsDocket (K.told keeper.old) }
    ensures { TellsDocket (K.told keeper.new) }
{
    let is_refused = refuses(alloc, keeper, command);
    let is_same = tells_end(alloc, keeper, story, questions)?;
    Ok(is_refused && is_same)
}

/// How many of these changes the database refuses, and then tells what a story ends with.
fn refusals_of<K: FileKeeper>(
    alloc: Global,
    keeper: &mut K,
    unfit: &str,
    story: &str,
    questions: &str,
) -> io::Result<u64>
    requires { TellsDocket (K.told keeper.old) }
    ensures { TellsDocket (K.told keeper.new) }
{
    let mut refused = 0u64;
    for command in unfit.lines() {
        if is_left_by(alloc, keeper, command, story, questions)? {
            refused = refused.saturating_add(1);
        }
    }
    Ok(refused)
}

/// How many changes the keeper refuses after the commands and then tells what it told before.
fn refusals_then<K: FileKeeper>(
    alloc: Global,
    keeper: &mut K,
    commands: &str,
    unfit: &str,
    questions: &str,
) -> io::Result<u64>
    requires { TellsDocket (K.told keeper.old) }
    ensures { TellsDocket (K.told keeper.new) }
{
    let before = story(alloc, keeper, commands, questions)?;
    refusals_of(alloc, keeper, unfit, before.as_str(), questions)
}

/// How many changes a database refuses after the commands and then tells what it told before.
pub fn refusals_after<K: FileKeeper>(
    alloc: Global,
    commands: &str,
    unfit: &str,
    questions: &str,
) -> io::Result<u64> {
    let mut keeper = K::blank(alloc, LASTING)?;
    refusals_then(alloc, &mut keeper, commands, unfit, questions)
}

/// Whether a keeper fails at each of its first calls, and each is counted.
fn fails_first<K: Keeper>(alloc: Global, keeper: &mut K) -> bool
    requires { TellsDocket (K.told keeper.old) }
    ensures { TellsDocket (K.told keeper.new) }
{
    fails_twice(alloc, keeper) && keeper.faults() == 2
}

/// Whether a database in which these statements made one table fails at each call, and no table is made in it.
pub fn is_left<K: FileKeeper>(alloc: Global, statements: &str) -> io::Result<bool> {
    let mut keeper = K::blank(alloc, LASTING)?.after(statements)?;
    let are_refused = fails_first(alloc, &mut keeper);
    let size = keeper.size();
    Ok(are_refused && size == Some(1))
}
