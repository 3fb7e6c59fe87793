//! The connections of a caller in memory: those that dials will make, the present one, and those that are over.
ghost use Rattle.std.specs.Prelude.{◌≡◌, ◌≤◌, ◌<◌, ◌+◌, ◌||◌, ◌++◌, ◌∷◌, ℕ, List, Option, Some, None, Ok, map, drop};
ghost use Rattle.std.specs.Prelude.{option_map, length, All, IfOk, IfSome, is_err, is_none, vec_len, vec_capacity};
ghost use Rattle.desk_links.specs.Links.{Talk, Reads, Writes, IsFront};
ghost use Rattle.desk_links.specs.Memory.{LinkState};
ghost use Rattle.desk_callers.specs.Memory.{line, told_by, hung, failed_of, is_refused};
ghost use Rattle.desk_callers.specs.Memory.{takes_none, NeverFails, IsWaiting, count_of};

use desk_links::{Link, LinkFault, MemLink};
use std::alloc::{AllocError, Global};
use std::collections::VecDeque;
use vet_base::Memory;

/// The connection that a dial will make.
fn line_of(
    alloc: Global,
    reply: Option<Vec<u8>>,
    room: usize,
) -> Result<Option<MemLink>, AllocError>
    ensures { IfOk result (λ l. l ≡ line room (option_map (λ bytes. bytes.items) reply)) }
{
    let Some(bytes) = reply else {
        return Ok(None);
    };
    match MemLink::new(alloc, bytes, Vec::new(alloc), room, Vec::new(alloc)) {
        Ok(link) => Ok(Some(link)),
        Err(Memory) => Err(AllocError),
    }
}

/// The connections that the dials will make.
pub(crate) fn lines_of(
    alloc: Global,
    dials: Vec<Option<Vec<u8>>>,
    room: usize,
) -> Result<VecDeque<Option<MemLink>>, AllocError>
    ensures { IfOk result (λ lines. lines.items ≡ map (λ reply. line room (option_map (λ bytes. bytes.items) reply))
        dials.items) }
{
    let mut lines = VecDeque::new(alloc);
    for reply in dials {
        let line = line_of(alloc, reply, room)?;
        lines.push_back(line)?;
    }
    Ok(lines)
}

/// Puts the present connection, where there is one, behind the dials that are over.
pub(crate) fn hang_up(ended: &mut Vec<Option<MemLink>>, present: &mut Option<MemLink>)
    requires { vec_len ended.old + count_of present.old ≤ vec_capacity ended.old }
    ensures ended { ended.new.items ≡ hung ended.old.items present.old }
    ensures present { present.new ≡ None }
    ensures len { vec_len ended.new ≡ vec_len ended.old + count_of present.old }
    ensures capacity { vec_capacity ended.old ≤ vec_capacity ended.new }
{
    if let Some(over) = present.take() {
        ended.push(Some(over)).unwrap();
    }
}

/// The connection of the next dial. Where there is none, or the dial is to fail, the dial is over.
pub(crate) fn next_line(
    ended: &mut Vec<Option<MemLink>>,
    left: &mut VecDeque<Option<MemLink>>,
    fails: bool,
) -> Option<MemLink>
    requires room { vec_len ended.old + length left.old.items ≤ vec_capacity ended.old }
    requires waiting { All IsWaiting left.old.items }
    ensures left { left.new.items ≡ drop 1 left.old.items }
    ensures made { IfSome result (λ link. (rest : List (Option LinkState)) × (left.old.items ≡ Some link ∷ rest)) }
    ensures ended { ended.new.items ≡ ended.old.items ++ failed_of result left.old.items }
    ensures refused { is_none result ≡ fails || is_refused left.old.items }
    ensures waiting { IsWaiting result }
    ensures still_waiting { All IsWaiting left.new.items }
    ensures room { vec_len ended.new + count_of result + length left.new.items ≤ vec_capacity ended.new }
{
    let Some(entry) = left.pop_front() else {
        return None;
    };
    if !fails {
        if let Some(link) = entry {
            return Some(link);
        }
    }
    ended.push(None).unwrap();
    None
}

/// Reads from the present connection; where there is none, nothing comes.
pub(crate) fn read_from(present: &mut Option<MemLink>, room: &mut [u8]) -> usize
    requires { NeverFails present.old }
    ensures told { (ended : List Talk) (left : List (List ℕ)) (missed : ℕ)
        → Reads (Some (told_by ended present.old left missed)) (Some (told_by ended present.new left missed)) room.old
        room.new (Ok result) }
    ensures within { result ≤ length room.old }
    ensures never { NeverFails present.new }
    ensures count { count_of present.new ≡ count_of present.old }
{
    let Some(link) = present else {
        return 0;
    };
    let Ok(count) = link.read(room) else {
        unreachable!();
    };
    count
}

/// Writes to the present connection; where there is none, only nothing can be written.
pub(crate) fn write_to(present: &mut Option<MemLink>, bytes: &[u8]) -> Result<usize, LinkFault>
    requires { NeverFails present.old }
    ensures told { (ended : List Talk) (left : List (List ℕ)) (missed : ℕ)
        → Writes (Some (told_by ended present.old left missed)) (Some (told_by ended present.new left missed)) bytes.now
        result }
    ensures front { IfOk result (λ n. IsFront n bytes.now) }
    ensures never { NeverFails present.new }
    ensures refused { is_err result ≡ takes_none bytes.now present.old }
    ensures count { count_of present.new ≡ count_of present.old }
{
    match present {
        Some(link) => link.write(bytes),
        None if bytes.is_empty() => Ok(0),
        None => Err(LinkFault::Failed),
    }
}
