ghost use Rattle.desk_serving.specs.Obeying.{TellsDocket};

use crate::reading::turn_of;
use crate::replying::text_of;
use crate::turn::Turn;
use case_keeper::{KeepFault, Keeper};
use case_rules::Reply;
use desk_serving::obey;
use std::alloc::{AllocError, Global};
use std::io;

/// What is replied to a turn; nothing where its command has no form.
fn reply_in<K: Keeper>(
    alloc: Global,
    keeper: &mut K,
    turn: &Turn,
) -> Result<Option<Reply>, KeepFault>
    requires { TellsDocket (K.told keeper.old) }
    ensures { TellsDocket (K.told keeper.new) }
{
    if !turn.command.is_formed() {
        return Ok(None);
    }
    let reply = obey(
        alloc,
        &turn.desk,
        keeper,
        turn.day,
        &turn.party,
        &turn.command,
    )?;
    Ok(Some(reply))
}

/// What is replied to a line; nothing where it has no form.
pub fn reply_to<K: Keeper>(
    alloc: Global,
    keeper: &mut K,
    line: &str,
) -> Result<Option<Reply>, KeepFault>
    requires { TellsDocket (K.told keeper.old) }
    ensures { TellsDocket (K.told keeper.new) }
{
    let turn = turn_of(alloc, line)?;
    reply_in(alloc, keeper, &turn)
}

/// The words of what is replied to a line.
fn words_for<K: Keeper>(alloc: Global, keeper: &mut K, line: &str) -> Result<String, AllocError>
    requires { TellsDocket (K.told keeper.old) }
    ensures { TellsDocket (K.told keeper.new) }
{
    let reply = reply_to(alloc, keeper, line);
    text_of(alloc, &reply)
}

/// Whether the reply to what was asked is the one that is due; another one is printed, with the title of its case.
fn is_same<R: Print>(rt: &R, title: &str, asked: &str, found: &str, due: &str) -> io::Result<bool> {
    let is_due = found == due;
    if !is_due {
        println!(rt; "{title}: {asked}: {found} in place of {due}")?;
    }
    Ok(is_due)
}

/// Whether a line gets the reply that stands in it; another one is printed, with the title of its case.
fn is_due<R: Print + AllocGlobal, K: Keeper>(
    rt: &R,
    keeper: &mut K,
    title: &str,
    line: &str,
) -> io::Result<bool>
    requires { TellsDocket (K.told keeper.old) }
    ensures { TellsDocket (K.told keeper.new) }
{
    let (asked, due) = line.split_once(" > ").unwrap_or((line, ""));
    let found = words_for(rt.alloc(), keeper, asked)?;
    is_same(rt, title, asked, found.as_str(), due)
}

/// Whether a line gets the reply that is due, with the number of the turn in the place of `%`.
fn is_due_at<R: Print + AllocGlobal, K: Keeper>(
    rt: &R,
    keeper: &mut K,
    turn: u16,
    title: &str,
    line: &str,
) -> io::Result<bool>
    requires { TellsDocket (K.told keeper.old) }
    ensures { TellsDocket (K.told keeper.new) }
{
    let number = turn.to_string(rt.alloc())?;
    let line = line.replace(rt.alloc(), "%", number.as_str())?;
    is_due(rt, keeper, title, line.as_str())
}

/// How many of so many lines get the reply that is due; `%` in the line is the number of the turn.
fn due_of<R: Print + AllocGlobal, K: Keeper>(
    rt: &R,
    keeper: &mut K,
    turns: u16,
    title: &str,
    line: &str,
) -> io::Result<u64>
    requires { TellsDocket (K.told keeper.old) }
    ensures { TellsDocket (K.told keeper.new) }
{
    let mut due = 0u64;
    for turn in 0..turns {
        if is_due_at(rt, keeper, turn, title, line)? {
            due = due.saturating_add(1);
        }
    }
    Ok(due)
}

/// How many of the replies to a line are due: of one, or of N behind `repeat N`. The line is a command and behind ` > `
/// the reply that is due; another reply is printed, with the title of its case.
pub fn due_in<R: Print + AllocGlobal, K: Keeper>(
    rt: &R,
    keeper: &mut K,
    title: &str,
    line: &str,
) -> io::Result<u64>
    requires { TellsDocket (K.told keeper.old) }
    ensures { TellsDocket (K.told keeper.new) }
{
    let repeated = line
        .strip_prefix("repeat ")
        .and_then(|rest| rest.split_once(" "));
    match repeated {
        Some((turns, rest)) => {
            let turns = turns.parse::<u16>().unwrap_or(0);
            due_of(rt, keeper, turns, title, rest)
        }
        None => due_of(rt, keeper, 1, title, line),
    }
}
