//! Machines that stop at each call in turn.

ghost use Rattle.desk_serving.specs.Obeying.{TellsDocket};

use case_keeper::{Keeper, MemKeeper};
use case_lines::reply_to;
use filed_keepers::{Faults, FileKeeper, asked, stopping, told};
use std::alloc::Global;
use std::io;

/// What is done until the files stop: statements, and commands to what these made; and what is asked afterwards.
#[derive(Clone, Copy)]
pub struct Run<'a> {
    pub statements: &'a str,
    /// The commands that make in memory what the statements make.
    pub like_these: &'a str,
    pub commands: &'a str,
    pub questions: &'a str,
}

/// Whether a command is told as done.
fn is_done<K: Keeper>(alloc: Global, keeper: &mut K, command: &str) -> bool
    requires { TellsDocket (K.told keeper.old) }
    ensures { TellsDocket (K.told keeper.new) }
{
    reply_to(alloc, keeper, asked(command)).is_ok()
}

/// How many of the commands, and at most so many, are told as done up to the first that is not.
pub fn done_of<K: Keeper>(alloc: Global, keeper: &mut K, commands: &str, most: usize) -> usize
    requires { TellsDocket (K.told keeper.old) }
    ensures { TellsDocket (K.told keeper.new) }
{
    let mut done = 0usize;
    for command in commands.lines() {
        if done >= most || !is_done(alloc, keeper, command) {
            break;
        }
        done = done.saturating_add(1);
    }
    done
}

/// What a keeper tells once its files have come back.
fn told_back<K: FileKeeper>(alloc: Global, keeper: K, questions: &str) -> io::Result<String> {
    let mut keeper = keeper.reopened(alloc, true)?;
    told(alloc, &mut keeper, questions)
}

/// Whether a keeper tells this once it was given as many of the commands, behind those that make in memory what the
/// statements make.
fn tells_after<K: Keeper>(
    alloc: Global,
    keeper: &mut K,
    run: Run<'_>,
    done: usize,
    found: &str,
) -> io::Result<bool>
    requires { TellsDocket (K.told keeper.old) }
    ensures { TellsDocket (K.told keeper.new) }
{
    done_of(alloc, keeper, run.like_these, usize::MAX);
    done_of(alloc, keeper, run.commands, done);
    let due = told(alloc, keeper, run.questions)?;
    Ok(due.as_str() == found)
}

/// Whether memory tells this after so many of the commands.
pub fn is_told_after(alloc: Global, run: Run<'_>, done: usize, found: &str) -> io::Result<bool> {
    let mut memory = MemKeeper::new(alloc);
    tells_after(alloc, &mut memory, run, done, found)
}

/// How a run ended whose files stop.
#[derive(Clone, Copy)]
enum End {
    /// The files stopped before the statements had run.
    Unmade,
    /// The database then had neither what was told as done nor that with one command more.
    Lost,
    /// Not all commands were told as done.
    Early,
    /// All commands were told as done.
    Late,
}

/// How a run ended of which so many commands were told as done, and whose database then told this.
fn end_of(alloc: Global, run: Run<'_>, done: usize, found: &str) -> io::Result<End> {
    let is_kept = is_told_after(alloc, run, done, found)?
        || is_told_after(alloc, run, done.saturating_add(1), found)?;
    if !is_kept {
        Ok(End::Lost)
    } else if done < run.commands.lines().count() {
        Ok(End::Early)
    } else {
        Ok(End::Late)
    }
}

/// How a run ends with a keeper whose files stop, once the statements have run.
fn end_with<K: FileKeeper>(alloc: Global, keeper: K, run: Run<'_>) -> io::Result<End>
    requires { TellsDocket (K.told keeper) }
{
    let mut keeper = keeper;
    let done = done_of(alloc, &mut keeper, run.commands, usize::MAX);
    let found = told_back(alloc, keeper, run.questions)?;
    end_of(alloc, run, done, found.as_str())
}

/// How a run ends whose files fail so.
fn end_at<K: FileKeeper>(alloc: Global, run: Run<'_>, faults: Faults) -> io::Result<End> {
    match K::blank(alloc, faults)?.after(run.statements) {
        Ok(keeper) => end_with(alloc, keeper, run),
        Err(_) => Ok(End::Unmade),
    }
}

/// At how many calls of the log, or of the database file, not all commands are told as done: the files stop at the
/// first call, at the second and so on, so many in all at most, and of the log up to the first at which all are done
/// again. Nothing where a database then has neither what was told as done nor that with one command more.
pub fn stops_of<K: FileKeeper>(
    alloc: Global,
    run: Run<'_>,
    of_log: bool,
    most: u64,
) -> io::Result<Option<u64>> {
    let mut stops = 0u64;
    for number in 0..most {
        match end_at::<K>(alloc, run, stopping(of_log, number))? {
            End::Unmade => {}
            End::Lost => return Ok(None),
            End::Early => stops = stops.saturating_add(1),
            End::Late => {
                if of_log && stops > 0 {
                    break;
                }
            }
        }
    }
    Ok(Some(stops))
}
