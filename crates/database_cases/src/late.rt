//! Keepers whose database is not there, or not there yet.

ghost use Rattle.desk_serving.specs.Obeying.{TellsDocket};

use case_keeper::{KeepFault, Keeper};
use case_lines::due_in;
use filed_keepers::{LASTING, LateOne, tells, told_by_memory};
use sqlite_keeper::{LateKeeper, Opener};
use std::alloc::Global;
use std::io;
use vet_base::{Memory, Name};

/// Whether two calls fail, and each is counted.
fn fails_for<K: Keeper>(alloc: Global, keeper: &mut K, developer: &Name) -> bool
    requires { TellsDocket (K.told keeper.old) }
    ensures { TellsDocket (K.told keeper.new) }
{
    let before = keeper.faults();
    let first = matches!(keeper.queued(alloc, developer), Err(KeepFault::Failed));
    let second = matches!(keeper.appeals(alloc), Err(KeepFault::Failed));
    first && second && keeper.faults() == before.saturating_add(2)
}

fn ann(alloc: Global) -> Result<Name, Memory> {
    Name::from_bytes(alloc, b"ann")
}

/// Whether two calls fail, and each is counted.
pub fn fails_twice<K: Keeper>(alloc: Global, keeper: &mut K) -> bool
    requires { TellsDocket (K.told keeper.old) }
    ensures { TellsDocket (K.told keeper.new) }
{
    match ann(alloc) {
        Ok(name) => fails_for(alloc, keeper, &name),
        Err(_) => false,
    }
}

/// Whether a keeper whose connection is refused twice fails twice, and then tells after each command what is due.
fn tells_at_last<K: LateOne>(
    alloc: Global,
    due: &str,
    commands: &str,
    questions: &str,
) -> io::Result<bool> {
    let mut keeper = K::late(alloc, 2, LASTING)?;
    let failed = fails_twice(alloc, &mut keeper);
    let is_told = tells(alloc, &mut keeper, due, commands, questions)?;
    Ok(failed && is_told)
}

/// Whether a connection that is refused is asked for again: a keeper fails twice and then tells what memory does.
pub fn asks_again<K: LateOne>(alloc: Global, commands: &str, questions: &str) -> io::Result<bool> {
    let due = told_by_memory(alloc, commands, questions)?;
    tells_at_last::<K>(alloc, due.as_str(), commands, questions)
}

/// Prints whether a keeper fails at each call.
fn fails_always<R: Print + AllocGlobal, K: Keeper>(rt: &R, keeper: &mut K) -> io::Result<()>
    requires { TellsDocket (K.told keeper.old) }
    ensures { TellsDocket (K.told keeper.new) }
{
    let line = "1 1 ann submit r1 app > store failed";
    let due = due_in(rt, keeper, "no folder", line)?;
    let holds = fails_twice(rt.alloc(), keeper) && fails_twice(rt.alloc(), keeper);
    println!(rt; "no folder: {due} reply that is due")?;
    println!(rt; "fails at each call where the folder is not there: {holds}")
}

/// Prints whether a keeper whose folder is not there fails at each call.
pub fn no_folder<R: Print + AllocGlobal, O: Opener + Drop>(
    rt: &R,
    keeper: LateKeeper<O>,
) -> io::Result<()> {
    let mut keeper = keeper;
    fails_always(rt, &mut keeper)
}
