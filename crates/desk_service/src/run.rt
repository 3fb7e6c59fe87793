//! The top call.
ghost use Rattle.std.specs.Prelude.{map, string_bytes};
ghost use Rattle.desk_serving.specs.Obeying.{TellsDocket};
ghost use Rattle.desk_service.specs.Saying.{PutsText};
ghost use Rattle.desk_service.specs.Serving.{seen, Answers, Ends};
ghost use Rattle.desk_words.specs.Serve.{asked_words, parse};

use crate::outside::{Outside, Status};
use crate::saying::said;
use case_keeper::Keeper;
use desk_links::{Clock, Door};
use desk_words::{Serving, serving_in};
use heard_files::{Files, Sink};
use std::alloc::Global;
use std::marker::Sync;
use std::sync::Wait;
use std::thread::Threads;
use vet_base::{Memory, PutFault};
use worker_pool::{Crew, Lookout};

fn printed<O: Sink>(alloc: Global, out: &mut O, status: Status, text: &[u8]) -> Status
    ensures { PutsText (O.taken out.old) (O.taken out.new) (O.fault_count out.old) (O.fault_count out.new)
        (O.handed out.old) (O.handed out.new) status
        text.now result }
{
    match out.put(alloc, text) {
        Ok(()) => status,
        Err(PutFault::Failed) => Status(6),
        Err(PutFault::Memory) => Status(7),
    }
}

/// Serves the desk that words ask for, as `serve` says, and prints what it came to.
pub fn serve_desk<F, O, K, D, C, T, L>(
    alloc: Global,
    asked: &Serving,
    outside: &mut Outside<F, O, K, D, C>,
    crew: &Crew<'_, T, L>,
) -> Status
where
    F: Files,
    O: Sink,
    K: Keeper,
    D: Door,
    C: Clock,
    T: Threads + Wait + Sync,
    L: Lookout,
    requires { TellsDocket (K.told outside.old.keeper) }
    ensures ends { Ends (asked_words asked.now) (C.told outside.old.clock)
        (seen (F.told outside.old.files) (F.fault_count outside.old.files) (F.heard outside.old.files)
        (O.taken outside.old.out) (O.fault_count outside.old.out) (O.handed outside.old.out)
        (K.told outside.old.keeper) (K.fault_count outside.old.keeper) (D.Link.told outside.old.door)
        (D.Link.fault_count outside.old.door))
        (seen (F.told outside.new.files) (F.fault_count outside.new.files) (F.heard outside.new.files)
        (O.taken outside.new.out) (O.fault_count outside.new.out) (O.handed outside.new.out)
        (K.told outside.new.keeper) (K.fault_count outside.new.keeper) (D.Link.told outside.new.door)
        (D.Link.fault_count outside.new.door)) result.0 }
    ensures docket { TellsDocket (K.told outside.new.keeper) }
{
    match said(alloc, asked, outside, crew) {
        Ok((status, text)) => printed(alloc, &mut outside.out, status, &text),
        Err(Memory) => Status(7),
    }
}

/// Serves as the words `serve OFFICE N` ask, and prints what it came to as one text that ends with one line feed and
/// goes out in one put. `None` exactly where the words are not these, N from 1 to 9,999 and OFFICE of 1 to 1,024 bytes;
/// then nothing was done.
///
/// The files `office.toml` and then `lists.toml` of the folder OFFICE are read, of 16,777,216 bytes at most; then
/// connections are taken from the door, on the office's port, until N were taken or no more come, and one request is
/// served on each, one connection after the other. Apps are judged by those lists. A connection or a keeper that fails
/// ends nothing but that connection.
///
/// The status is:
/// - 0: that many connections were taken, `served M`.
/// - 3: the first of the two files that is absent, too long or not of its form is refused, `refused NAME: REASON`. No
///   connection was taken and no case changed.
/// - 5: the read of one of them failed in this call, `read fault OFFICE/NAME`. No connection was taken, and no case
///   changed.
/// - 6: the put failed in this call, and a front of the text that was due was printed.
/// - 7: memory ran out; nothing was printed.
/// - 8: the door failed to open a connection in this call, `door fault`. The connections before it were served.
///
/// Where each app that was called clear under these lists is safe by them, so it is when this returns: no run of the
/// machine brings a value of a listed source to a listed sink unless the app's declaration names that pair, or comes to
/// what is not modelled.
///
/// The crew finds what follows in an app, with as many workers as the office says. With more than one a further thread
/// judges ahead what is handed in. No answer depends on either, or on how they take turns.
pub fn serve<F, O, K, D, C, T, L>(
    alloc: Global,
    words: &[String],
    outside: &mut Outside<F, O, K, D, C>,
    crew: &Crew<'_, T, L>,
) -> Option<Status>
where
    F: Files,
    O: Sink,
    K: Keeper,
    D: Door,
    C: Clock,
    T: Threads + Wait + Sync,
    L: Lookout,
    // The keeper's cases, where it tells them, are those of a desk.
    requires { TellsDocket (K.told outside.old.keeper) }

    // The status, the printed text and what became of cases and connections are those that are due to the words, unless
    // a read, the door or the put failed in this very call, or memory ran out.
    ensures answers { Answers (parse (map string_bytes words.now)) (C.told outside.old.clock)
        (seen (F.told outside.old.files) (F.fault_count outside.old.files) (F.heard outside.old.files)
        (O.taken outside.old.out) (O.fault_count outside.old.out) (O.handed outside.old.out)
        (K.told outside.old.keeper) (K.fault_count outside.old.keeper) (D.Link.told outside.old.door)
        (D.Link.fault_count outside.old.door))
        (seen (F.told outside.new.files) (F.fault_count outside.new.files) (F.heard outside.new.files)
        (O.taken outside.new.out) (O.fault_count outside.new.out) (O.handed outside.new.out)
        (K.told outside.new.keeper) (K.fault_count outside.new.keeper) (D.Link.told outside.new.door)
        (D.Link.fault_count outside.new.door)) result }
    ensures docket { TellsDocket (K.told outside.new.keeper) }
{
    let asked = serving_in(words)?;
    Some(serve_desk(alloc, &asked, outside, crew))
}
