//! The top call.
ghost use Rattle.std.specs.Prelude.{map, string_bytes};
ghost use Rattle.client_service.specs.Saying.{PutsText};
ghost use Rattle.client_service.specs.Submitting.{seen, Answers, Ends};
ghost use Rattle.client_service.specs.Words.{asked_words, parse, IsWithin};

use crate::outside::Status;
use crate::saying::said;
use crate::words::{Submitting, submitting_in};
use desk_callers::Caller;
use heard_files::{Files, Sink};
use std::alloc::Global;
use vet_base::{Memory, PutFault};

fn printed<O: Sink>(alloc: Global, out: &mut O, status: Status, text: &[u8]) -> Status
    ensures { PutsText (O.taken out.old) (O.taken out.new) (O.fault_count out.old) (O.fault_count out.new)
        (O.handed out.old) (O.handed out.new) status
        text.now result }
{
    match out.put(alloc, text) {
        Ok(()) => status,
        Err(PutFault::Failed) => Status(6),
        Err(PutFault::Memory) => Status(7),
    }
}

/// Submits as the words ask, and prints what it came to.
fn run<F: Files, O: Sink, N: Caller>(
    alloc: Global,
    asked: &Submitting,
    files: &mut F,
    out: &mut O,
    caller: &mut N,
) -> Status
    requires { IsWithin asked.now }
    ensures { Ends (asked_words asked.now)
        (seen (F.told files.old) (F.fault_count files.old) (F.heard files.old) (O.taken out.old)
        (O.fault_count out.old) (O.handed out.old)
        (N.told caller.old) (N.fault_count caller.old))
        (seen (F.told files.new) (F.fault_count files.new) (F.heard files.new) (O.taken out.new)
        (O.fault_count out.new) (O.handed out.new)
        (N.told caller.new) (N.fault_count caller.new)) result.0 }
{
    match said(alloc, asked, files, caller) {
        Ok((status, text)) => printed(alloc, out, status, &text),
        Err(Memory) => Status(7),
    }
}

/// Hands in the app of a folder as the words `submit DIR REF` ask, and prints what it came to as one text that ends
/// with one line feed and goes out in one put. `None` exactly where the words are not these, DIR of 1 to 1,024 bytes
/// and REF of 1 to 64 bytes of `A-Z a-z 0-9 . _ -`; then nothing was done.
///
/// `DIR/client.toml` says the desk's port on this machine, the developer's token and how often one
/// tries. Then the files of the app are read in the order of `check`, but for the lists, and its
/// request is made, once. Each try dials, writes these bytes and reads a reply, on a connection of
/// its own; the first whole reply that is neither 503 nor 507 ends them. The desk reads the
/// request as the submission of this app under this reference, so a second try changes nothing.
///
/// The status is:
/// - 0: the desk answered 200 or 201, `accepted REF`.
/// - 3: the desk answered otherwise, `desk answered CODE`; or the first file that is absent, too long or not of its
///   form is refused, `refused NAME: REASON`, a text that is not UTF-8, `refused NAME: not text`, or a body of more
///   than 67,108,864 bytes, `refused submission: longer than 67108864`. Where something is refused nothing was dialled.
/// - 5: the read of a file failed in this call, `read fault DIR/NAME`. Nothing was dialled.
/// - 6: the put failed in this call, and a front of the text that was due was printed.
/// - 7: memory ran out; nothing was printed. What was dialled and written stays.
/// - 10: each try ended without such a reply, `no answer after N tries`. The desk may have the app.
pub fn submit<F: Files, O: Sink, N: Caller>(
    alloc: Global,
    words: &[String],
    files: &mut F,
    out: &mut O,
    caller: &mut N,
) -> Option<Status>
    // The status, the printed text and what was dialled and written are those that are due to the words, unless a read
    // or the put failed in this very call, or memory ran out.
    ensures answers { Answers (parse (map string_bytes words.now))
        (seen (F.told files.old) (F.fault_count files.old) (F.heard files.old) (O.taken out.old)
        (O.fault_count out.old) (O.handed out.old)
        (N.told caller.old) (N.fault_count caller.old))
        (seen (F.told files.new) (F.fault_count files.new) (F.heard files.new) (O.taken out.new)
        (O.fault_count out.new) (O.handed out.new)
        (N.told caller.new) (N.fault_count caller.new)) result }
{
    let asked = submitting_in(words)?;
    Some(run(alloc, &asked, files, out, caller))
}
