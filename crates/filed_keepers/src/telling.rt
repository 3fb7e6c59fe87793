//! What a keeper tells, as text: two that tell the same have the same, field by field and byte by byte.

ghost use Rattle.desk_serving.specs.Obeying.{TellsDocket};

use case_keeper::{KeepFault, Keeper, MemKeeper};
use case_lines::reply_to;
use case_rules::{Case, Reply};
use std::alloc::Global;
use std::io;
use vet_base::Name;

/// The command of a line, without the reply that is due.
pub fn asked(line: &str) -> &str {
    match line.split_once(" > ") {
        Some((asked, _)) => asked,
        None => line,
    }
}

/// Puts a reply behind the text.
fn put_reply(text: &mut String, reply: &Result<Option<Reply>, KeepFault>) -> io::Result<()> {
    writeln!(text, "{reply:?}")?;
    Ok(())
}

/// Puts what the keeper replies to a line behind the text.
fn put_reply_to<K: Keeper>(
    alloc: Global,
    keeper: &mut K,
    line: &str,
    text: &mut String,
) -> io::Result<()>
    requires { TellsDocket (K.told keeper.old) }
    ensures { TellsDocket (K.told keeper.new) }
{
    let reply = reply_to(alloc, keeper, line);
    put_reply(text, &reply)
}

fn name_of(alloc: Global, name: &str) -> io::Result<Name> {
    match Name::from_bytes(alloc, name.as_bytes()) {
        Ok(name) => Ok(name),
        Err(_) => Err(io::Error::from(io::ErrorKind::OutOfMemory)),
    }
}

/// Puts a case behind the text.
fn put_case(text: &mut String, case: &Result<Option<Case>, KeepFault>) -> io::Result<()> {
    write!(text, "{case:?}")?;
    Ok(())
}

/// Puts behind the text the case of this developer and reference, with its content.
fn put_named<K: Keeper>(
    alloc: Global,
    keeper: &mut K,
    party: &Name,
    reference: &Name,
    text: &mut String,
) -> io::Result<()>
    requires { TellsDocket (K.told keeper.old) }
    ensures { TellsDocket (K.told keeper.new) }
{
    let case = keeper.find(alloc, party, reference);
    put_case(text, &case)
}

/// The same, where the names are texts.
fn put_found<K: Keeper>(
    alloc: Global,
    keeper: &mut K,
    names: (&str, &str),
    text: &mut String,
) -> io::Result<()>
    requires { TellsDocket (K.told keeper.old) }
    ensures { TellsDocket (K.told keeper.new) }
{
    let party = name_of(alloc, names.0)?;
    let reference = name_of(alloc, names.1)?;
    put_named(alloc, keeper, &party, &reference, text)
}

/// The developer and the reference of a line that shows a case, as `100 1 ann show r1`.
fn shown_in(line: &str) -> Option<(&str, &str)> {
    let mut words = line.split(' ').skip(2);
    match (words.next(), words.next(), words.next()) {
        (Some(party), Some("show"), Some(reference)) => Some((party, reference)),
        _ => None,
    }
}

/// Puts what the keeper replies to a line behind the text, and where it shows a case that case with its content.
fn put_line<K: Keeper>(
    alloc: Global,
    keeper: &mut K,
    line: &str,
    text: &mut String,
) -> io::Result<()>
    requires { TellsDocket (K.told keeper.old) }
    ensures { TellsDocket (K.told keeper.new) }
{
    put_reply_to(alloc, keeper, line, text)?;
    match shown_in(line) {
        Some(names) => put_found(alloc, keeper, names, text),
        None => Ok(()),
    }
}

/// Puts what the keeper replies to each line behind the text.
fn put_replies<K: Keeper>(
    alloc: Global,
    keeper: &mut K,
    lines: &str,
    text: &mut String,
) -> io::Result<()>
    requires { TellsDocket (K.told keeper.old) }
    ensures { TellsDocket (K.told keeper.new) }
{
    for line in lines.lines() {
        put_line(alloc, keeper, asked(line), text)?;
    }
    Ok(())
}

/// Puts behind the text how many cases without an entry a developer has.
fn put_count<K: Keeper>(
    alloc: Global,
    keeper: &mut K,
    name: &str,
    text: &mut String,
) -> io::Result<()>
    requires { TellsDocket (K.told keeper.old) }
    ensures { TellsDocket (K.told keeper.new) }
{
    let name = name_of(alloc, name)?;
    let count = keeper.queued(alloc, &name);
    write!(text, " {count:?}")?;
    Ok(())
}

/// Puts behind the text which case without an entry is the first.
fn put_first<K: Keeper>(alloc: Global, keeper: &mut K, text: &mut String) -> io::Result<()>
    requires { TellsDocket (K.told keeper.old) }
    ensures { TellsDocket (K.told keeper.new) }
{
    let first = keeper.first_queued(alloc);
    put_case(text, &first)
}

/// Puts behind the text which case without an entry is the first, and how many ann and bob have.
fn put_queued<K: Keeper>(alloc: Global, keeper: &mut K, text: &mut String) -> io::Result<()>
    requires { TellsDocket (K.told keeper.old) }
    ensures { TellsDocket (K.told keeper.new) }
{
    put_first(alloc, keeper, text)?;
    put_count(alloc, keeper, "ann", text)?;
    put_count(alloc, keeper, "bob", text)?;
    text.push_str("\n")?;
    Ok(())
}

/// Puts behind the text what the keeper replies to each of the questions, and what it has queued.
fn put_told<K: Keeper>(
    alloc: Global,
    keeper: &mut K,
    questions: &str,
    text: &mut String,
) -> io::Result<()>
    requires { TellsDocket (K.told keeper.old) }
    ensures { TellsDocket (K.told keeper.new) }
{
    put_replies(alloc, keeper, questions, text)?;
    put_queued(alloc, keeper, text)
}

/// What the keeper replies to each of the questions, and what it has queued.
pub fn told<K: Keeper>(alloc: Global, keeper: &mut K, questions: &str) -> io::Result<String>
    requires { TellsDocket (K.told keeper.old) }
    ensures { TellsDocket (K.told keeper.new) }
{
    let mut text = String::new(alloc);
    put_told(alloc, keeper, questions, &mut text)?;
    Ok(text)
}

/// Puts what the keeper replies to a command behind the text, and then what it tells.
fn put_turn<K: Keeper>(
    alloc: Global,
    keeper: &mut K,
    command: &str,
    questions: &str,
    text: &mut String,
) -> io::Result<()>
    requires { TellsDocket (K.told keeper.old) }
    ensures { TellsDocket (K.told keeper.new) }
{
    put_replies(alloc, keeper, command, text)?;
    put_told(alloc, keeper, questions, text)
}

/// Puts behind the text what the keeper replies to each command and, after each, what it tells.
fn put_story<K: Keeper>(
    alloc: Global,
    keeper: &mut K,
    commands: &str,
    questions: &str,
    text: &mut String,
) -> io::Result<()>
    requires { TellsDocket (K.told keeper.old) }
    ensures { TellsDocket (K.told keeper.new) }
{
    for command in commands.lines() {
        put_turn(alloc, keeper, command, questions, text)?;
    }
    Ok(())
}

/// What the keeper replies to each command and, after each, to the questions; so it ends with what is told then.
pub fn story<K: Keeper>(
    alloc: Global,
    keeper: &mut K,
    commands: &str,
    questions: &str,
) -> io::Result<String>
    requires { TellsDocket (K.told keeper.old) }
    ensures { TellsDocket (K.told keeper.new) }
{
    let mut text = String::new(alloc);
    put_story(alloc, keeper, commands, questions, &mut text)?;
    Ok(text)
}

/// Whether a keeper tells after each command what is due.
pub fn tells<K: Keeper>(
    alloc: Global,
    keeper: &mut K,
    due: &str,
    commands: &str,
    questions: &str,
) -> io::Result<bool>
    requires { TellsDocket (K.told keeper.old) }
    ensures { TellsDocket (K.told keeper.new) }
{
    let found = story(alloc, keeper, commands, questions)?;
    Ok(found.as_str() == due)
}

/// Whether a story ends with what the keeper tells.
pub fn tells_end<K: Keeper>(
    alloc: Global,
    keeper: &mut K,
    story: &str,
    questions: &str,
) -> io::Result<bool>
    requires { TellsDocket (K.told keeper.old) }
    ensures { TellsDocket (K.told keeper.new) }
{
    let told = told(alloc, keeper, questions)?;
    Ok(story.ends_with(told.as_str()))
}

/// What memory tells after each command.
pub fn told_by_memory(alloc: Global, commands: &str, questions: &str) -> io::Result<String> {
    let mut memory = MemKeeper::new(alloc);
    story(alloc, &mut memory, commands, questions)
}
