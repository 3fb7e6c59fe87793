//! The program, whatever system runs it: words, files, standard output, a keeper of cases, a port with a clock and
//! ports that are dialled go to the top call that the words ask for, and its status is the exit status. `vet` hands it
//! the adapters of the system.
#![tactic(auto)]

ghost use Rattle.std.specs.Prelude.{◌≡◌, map, string_bytes};
ghost use Rattle.std.specs.Process.{exit_status};
ghost use Rattle.desk_serving.specs.Obeying.{TellsDocket};
ghost use Rattle.desk_service.specs.Serving.{seen, Ends};
ghost use Rattle.desk_words.specs.Serve.{asked_words};
ghost use Rattle.vet_program.specs.Program.{RunsGiven};
ghost use Rattle.desk_program.specs.Program.{task_of, world, Runs};

mod files;
mod keepers;

use caller_host::TcpCaller;
use case_keeper::Keeper;
use desk_callers::Caller;
use desk_host::{HostClock, TcpDoor};
use desk_links::{Clock, Door};
use desk_service::{Outside, Status, serve_desk};
use desk_words::{Serving, serving_in};
pub use files::{CaseFiles, case_files};
use heard_files::{Files, Handing, Hearing, Sink};
pub use keepers::Keepers;
use std::alloc::Global;
use std::env::Env;
use std::io;
use std::marker::Sync;
use std::net::Net;
use std::process::ExitCode;
use std::random::RandomSource;
use std::rt::Files as SystemFiles;
use std::sync::Wait;
use std::thread::Threads;
use std::time::Clock as SystemClock;
use vet_base::Memory;
use vet_program::{answered_without_desk, seed_of, words_of};
use vetting_desk::{HostFiles, StandardSink, words_given};
use worker_pool::{Crew, NoLookout};

/// Serves the desk that is asked for, over this outside, with threads of the system. What `serve_desk` says of its
/// status is so of the exit status.
pub fn served<F, O, K, D, C, T>(
    alloc: Global,
    asked: &Serving,
    outside: &mut Outside<F, O, K, D, C>,
    rt: &T,
    seed: u64,
) -> ExitCode
where
    F: Files,
    O: Sink,
    K: Keeper,
    D: Door,
    C: Clock,
    T: Threads + Wait + Sync,
    // The keeper's cases, where it tells them, are those of a desk.
    requires { TellsDocket (K.told outside.old.keeper) }

    // The exit status, the printed text and what became of cases and connections are those that are due to what is
    // asked for, unless a read, the door or the put failed in this very call, or memory ran out.
    ensures ends { Ends (asked_words asked.now) (C.told outside.old.clock)
        (seen (F.told outside.old.files) (F.fault_count outside.old.files) (F.heard outside.old.files)
        (O.taken outside.old.out) (O.fault_count outside.old.out) (O.handed outside.old.out)
        (K.told outside.old.keeper) (K.fault_count outside.old.keeper) (D.Link.told outside.old.door)
        (D.Link.fault_count outside.old.door))
        (seen (F.told outside.new.files) (F.fault_count outside.new.files) (F.heard outside.new.files)
        (O.taken outside.new.out) (O.fault_count outside.new.out) (O.handed outside.new.out)
        (K.told outside.new.keeper) (K.fault_count outside.new.keeper) (D.Link.told outside.new.door)
        (D.Link.fault_count outside.new.door))
        (exit_status result) }
    ensures docket { TellsDocket (K.told outside.new.keeper) }
{
    let crew = Crew {
        rt,
        lookout: &NoLookout,
        workers: 1,
        seed,
    };
    let Status(status) = serve_desk(alloc, asked, outside, &crew);
    ExitCode::from(status)
}

/// Tells the keeper in which files its cases may be kept: those of the office that is asked for.
fn placed<K: Keepers>(
    alloc: Global,
    asked: &Serving,
    keepers: &K,
    keeper: &mut K::Kept,
) -> Result<(), Memory>
    requires { K.unplaced keeper.old }
    ensures told { K.Kept.told keeper.new ≡ K.Kept.told keeper.old }
    ensures faults { K.Kept.fault_count keeper.new ≡ K.Kept.fault_count keeper.old }
{
    let files = case_files(alloc, asked)?;
    keepers.place(keeper, files);
    Ok(())
}

/// Serves the desk that is asked for, with a keeper that is told where its cases may be kept. Where there is no memory
/// for that, nothing is done.
fn served_at_place<F, O, K, D, C, T>(
    alloc: Global,
    asked: &Serving,
    outside: &mut Outside<F, O, K::Kept, D, C>,
    keepers: &K,
    rt: &T,
    seed: u64,
) -> ExitCode
where
    F: Files,
    O: Sink,
    K: Keepers,
    D: Door,
    C: Clock,
    T: Threads + Wait + Sync,
    requires docket { TellsDocket (K.Kept.told outside.old.keeper) }
    requires unplaced { K.unplaced outside.old.keeper }
    ensures ends { Ends (asked_words asked.now) (C.told outside.old.clock)
        (seen (F.told outside.old.files) (F.fault_count outside.old.files) (F.heard outside.old.files)
        (O.taken outside.old.out) (O.fault_count outside.old.out) (O.handed outside.old.out)
        (K.Kept.told outside.old.keeper) (K.Kept.fault_count outside.old.keeper) (D.Link.told outside.old.door)
        (D.Link.fault_count outside.old.door))
        (seen (F.told outside.new.files) (F.fault_count outside.new.files) (F.heard outside.new.files)
        (O.taken outside.new.out) (O.fault_count outside.new.out) (O.handed outside.new.out)
        (K.Kept.told outside.new.keeper) (K.Kept.fault_count outside.new.keeper) (D.Link.told outside.new.door)
        (D.Link.fault_count outside.new.door))
        (exit_status result) }
    ensures docket { TellsDocket (K.Kept.told outside.new.keeper) }
{
    match placed(alloc, asked, keepers, &mut outside.keeper) {
        Ok(()) => served(alloc, asked, outside, rt, seed),
        Err(Memory) => ExitCode::from(7),
    }
}

/// Serves a desk where the words ask for one, and else hands in an app or vets as they ask, over this outside and this
/// caller, with threads of the system. The words that ask for a desk are taken apart here alone.
fn answered_by<F, O, K, D, C, N, T>(
    alloc: Global,
    words: &[String],
    outside: &mut Outside<F, O, K::Kept, D, C>,
    keepers: &K,
    caller: &mut N,
    rt: &T,
    seed: u64,
) -> ExitCode
where
    F: Files,
    O: Sink,
    K: Keepers,
    D: Door,
    C: Clock,
    N: Caller,
    T: Threads + Wait + Sync,
    requires docket { TellsDocket (K.Kept.told outside.old.keeper) }
    requires unplaced { K.unplaced outside.old.keeper }
    ensures runs { Runs (task_of (map string_bytes words.now)) (C.told outside.old.clock)
        (world (F.told outside.old.files) (F.fault_count outside.old.files) (F.heard outside.old.files)
        (O.taken outside.old.out) (O.fault_count outside.old.out) (O.handed outside.old.out)
        (K.Kept.told outside.old.keeper) (K.Kept.fault_count outside.old.keeper) (D.Link.told outside.old.door)
        (D.Link.fault_count outside.old.door) (N.Link.told caller.old) (N.Link.fault_count caller.old))
        (world (F.told outside.new.files) (F.fault_count outside.new.files) (F.heard outside.new.files)
        (O.taken outside.new.out) (O.fault_count outside.new.out) (O.handed outside.new.out)
        (K.Kept.told outside.new.keeper) (K.Kept.fault_count outside.new.keeper) (D.Link.told outside.new.door)
        (D.Link.fault_count outside.new.door) (N.Link.told caller.new) (N.Link.fault_count caller.new))
        (exit_status result) }
    ensures docket { TellsDocket (K.Kept.told outside.new.keeper) }
{
    match serving_in(words) {
        Some(asked) => served_at_place(alloc, &asked, outside, keepers, rt, seed),
        None => answered_without_desk(
            alloc,
            words,
            &mut outside.files,
            &mut outside.out,
            caller,
            rt,
            seed,
        ),
    }
}

/// The program: it answers the words that the system gave, over these files, this output, keeper, door, clock and
/// caller, with threads and a seed of the system. Words that cannot be read are no command, and the exit status is 7
/// where memory ran out while they were read.
pub fn program<F, O, K, D, C, N, T>(
    alloc: Global,
    given: io::Result<Vec<String>>,
    outside: &mut Outside<F, O, K::Kept, D, C>,
    keepers: &K,
    caller: &mut N,
    rt: &T,
) -> ExitCode
where
    F: Files,
    O: Sink,
    K: Keepers,
    D: Door,
    C: Clock,
    N: Caller,
    T: RandomSource + Threads + Wait + Sync,
    // The keeper's cases, where it tells them, are those of a desk.
    requires docket { TellsDocket (K.Kept.told outside.old.keeper) }
    // No place was given to the keeper before.
    requires unplaced { K.unplaced outside.old.keeper }

    // It ends as is due to what the words ask for, a desk, a submission or a vetting; where there was no memory for the
    // words nothing is done.
    ensures runs { RunsGiven given (λ words. Runs (task_of words) (C.told outside.old.clock)
        (world (F.told outside.old.files) (F.fault_count outside.old.files) (F.heard outside.old.files)
        (O.taken outside.old.out) (O.fault_count outside.old.out) (O.handed outside.old.out)
        (K.Kept.told outside.old.keeper) (K.Kept.fault_count outside.old.keeper) (D.Link.told outside.old.door)
        (D.Link.fault_count outside.old.door) (N.Link.told caller.old) (N.Link.fault_count caller.old))
        (world (F.told outside.new.files) (F.fault_count outside.new.files) (F.heard outside.new.files)
        (O.taken outside.new.out) (O.fault_count outside.new.out) (O.handed outside.new.out)
        (K.Kept.told outside.new.keeper) (K.Kept.fault_count outside.new.keeper) (D.Link.told outside.new.door)
        (D.Link.fault_count outside.new.door) (N.Link.told caller.new) (N.Link.fault_count caller.new))
        (exit_status result))
        ((exit_status result ≡ 7) ×
        (world (F.told outside.new.files) (F.fault_count outside.new.files) (F.heard outside.new.files)
        (O.taken outside.new.out) (O.fault_count outside.new.out) (O.handed outside.new.out)
        (K.Kept.told outside.new.keeper) (K.Kept.fault_count outside.new.keeper) (D.Link.told outside.new.door)
        (D.Link.fault_count outside.new.door) (N.Link.told caller.new) (N.Link.fault_count caller.new)
        ≡ world (F.told outside.old.files) (F.fault_count outside.old.files) (F.heard outside.old.files)
        (O.taken outside.old.out) (O.fault_count outside.old.out) (O.handed outside.old.out)
        (K.Kept.told outside.old.keeper) (K.Kept.fault_count outside.old.keeper) (D.Link.told outside.old.door)
        (D.Link.fault_count outside.old.door) (N.Link.told caller.old) (N.Link.fault_count caller.old))) }
    ensures docket { TellsDocket (K.Kept.told outside.new.keeper) }
{
    match words_given(alloc, given) {
        Ok(words) => answered_by(alloc, &words, outside, keepers, caller, rt, seed_of(rt)),
        Err(status) => ExitCode::from(status.0),
    }
}

/// Runs the program over the words, the files, the output, the ports and the clock of the system, and over this keeper.
pub fn run<R, K>(rt: R, keepers: &K, keeper: K::Kept) -> ExitCode
where
    R: SystemFiles
        + Env
        + RandomSource
        + Print
        + Net
        + SystemClock
        + AllocGlobal
        + Threads
        + Wait
        + Sync
        + Copy
        + Drop,
    K: Keepers,
    requires docket { TellsDocket (K.Kept.told keeper) }
    requires unplaced { K.unplaced keeper }
{
    let alloc = rt.alloc();
    let mut outside = Outside {
        files: Hearing::over(HostFiles::new(rt)),
        out: Handing::over(StandardSink::new(rt)),
        keeper,
        door: TcpDoor::new(rt),
        clock: HostClock::new(rt),
    };
    let mut caller = TcpCaller::new(rt);
    program(
        alloc,
        words_of(&rt, alloc),
        &mut outside,
        keepers,
        &mut caller,
        &rt,
    )
}
