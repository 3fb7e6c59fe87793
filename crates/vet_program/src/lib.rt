//! The program over whatever system runs it, but for the desk over HTTP: where the words hand in an app they go, with
//! the files, the standard output and ports of this machine, to the client's top call, and else with a seed to the
//! vetting's, whose status is the exit status. `desk_program` runs it where its words ask for no desk, and so do the
//! programs that test it.
#![tactic(auto)]

ghost use Rattle.std.specs.Prelude.{◌≡◌, map, option_map, string_bytes};
ghost use Rattle.std.specs.Process.{exit_status};
ghost use Rattle.desk_words.specs.Words.{parse};
ghost use Rattle.vetting_desk.specs.Answer.{SaysClear, IsSafe, SaysFound};
ghost use Rattle.app_folder.specs.Outside.{outside};
ghost use Rattle.vetting_desk.specs.Top.{EndsAsDue, EndsAsRead, EndsAsOnlyDue, PrintsFullReport, HandsClear, TakesClear};
ghost use Rattle.client_service.specs.Saying.{status};
ghost use Rattle.client_service.specs.Submitting.{seen, Answers};
ghost use Rattle.client_service.specs.Words.{parse as parse_submit};
ghost use Rattle.vet_program.specs.Program.{task_of, Runs, RunsGiven};

use caller_host::TcpCaller;
use client_service::{Status as ClientStatus, submit};
use desk_callers::Caller;
use heard_files::{Files, Handing, Hearing, Sink};
use std::alloc::Global;
use std::env::Env;
use std::marker::Sync;
use std::net::Net;
use std::process::ExitCode;
use std::random::RandomSource;
use std::rt::Files as SystemFiles;
use std::sync::Wait;
use std::thread::Threads;
use std::time::Clock;
use std::{env, io};
use vetting_desk::{HostFiles, StandardSink, Status, vet, words_given};
use worker_pool::{Crew, NoLookout};

/// The words behind the program's name.
pub fn words_of(rt: &(impl Env + AllocGlobal), alloc: Global) -> io::Result<Vec<String>> {
    let mut words = Vec::new(alloc);
    for word in env::args(rt)?.skip(1) {
        words.push(word)?;
    }
    Ok(words)
}

/// A number that nobody outside can guess; a fixed one where the system gives none.
pub fn seed_of(rt: &impl RandomSource) -> u64 {
    let mut bytes = [0; 8];
    match rt.fill_bytes(&mut bytes) {
        Ok(()) => u64::from_le_bytes(bytes),
        Err(_) => 0,
    }
}

/// Judges as the words ask, over these files and this output, with threads of the system. What `vet` says of its status
/// is so of the exit status.
pub fn vetted<F: Files, O: Sink, T: Threads + Wait + Sync>(
    alloc: Global,
    words: &[String],
    files: &mut F,
    out: &mut O,
    rt: &T,
    seed: u64,
) -> ExitCode
    // The exit status, the printed text and the files are those that are due to the words, unless a read or the put
    // failed in this very call, or memory ran out.
    ensures ends { EndsAsDue (parse (map string_bytes words.now))
        (outside (F.told files.old) (F.fault_count files.old) (O.taken out.old) (O.fault_count out.old)
        (O.handed out.old))
        (outside (F.told files.new) (F.fault_count files.new) (O.taken out.new) (O.fault_count out.new)
        (O.handed out.new))
        (exit_status result) }

    // So they are by what the reads of this very call gave, of any files: the files of the folder in their order, or up
    // to the one for which the app is refused, and for `recheck` the certificate.
    ensures reads { EndsAsRead (parse (map string_bytes words.now))
        (outside (F.told files.old) (F.fault_count files.old) (O.taken out.old) (O.fault_count out.old)
        (O.handed out.old))
        (outside (F.told files.new) (F.fault_count files.new) (O.taken out.new) (O.fault_count out.new)
        (O.handed out.new))
        (F.heard files.old) (F.heard files.new) (exit_status result) }

    // Nothing else is due, where the files tell what they hold, but that a finding may have several right stories.
    ensures only { EndsAsOnlyDue (parse (map string_bytes words.now))
        (outside (F.told files.old) (F.fault_count files.old) (O.taken out.old) (O.fault_count out.old)
        (O.handed out.old))
        (outside (F.told files.new) (F.fault_count files.new) (O.taken out.new) (O.fault_count out.new)
        (O.handed out.new))
        (exit_status result) }

    // Clear is a theorem about the very bytes that the first reads of this call gave, of any files.
    ensures sound { SaysClear (parse (map string_bytes words.now)) (exit_status result) →
        IsSafe (parse (map string_bytes words.now)) (record { files = F.told files.old; printed = O.taken out.old })
        (F.heard files.old) (F.heard files.new) }

    // So it is wherever the word `clear` was printed, also where the put failed behind it.
    ensures clear { TakesClear (parse (map string_bytes words.now))
        (outside (F.told files.old) (F.fault_count files.old) (O.taken out.old) (O.fault_count out.old)
        (O.handed out.old))
        (outside (F.told files.new) (F.fault_count files.new) (O.taken out.new) (O.fault_count out.new)
        (O.handed out.new)) →
        IsSafe (parse (map string_bytes words.now)) (record { files = F.told files.old; printed = O.taken out.old })
        (F.heard files.old) (F.heard files.new) }

    // So it is wherever that word was handed to the output, of any output.
    ensures handed { HandsClear (parse (map string_bytes words.now))
        (outside (F.told files.old) (F.fault_count files.old) (O.taken out.old) (O.fault_count out.old)
        (O.handed out.old))
        (outside (F.told files.new) (F.fault_count files.new) (O.taken out.new) (O.fault_count out.new)
        (O.handed out.new)) →
        IsSafe (parse (map string_bytes words.now)) (record { files = F.told files.old; printed = O.taken out.old })
        (F.heard files.old) (F.heard files.new) }

    // Flagged and undecided leave out nothing that a run of the app does, unless the app is too large.
    ensures full { SaysFound (parse (map string_bytes words.now)) (exit_status result) →
        PrintsFullReport (parse (map string_bytes words.now))
        (outside (F.told files.old) (F.fault_count files.old) (O.taken out.old) (O.fault_count out.old)
        (O.handed out.old))
        (outside (F.told files.new) (F.fault_count files.new) (O.taken out.new) (O.fault_count out.new)
        (O.handed out.new))
        (F.heard files.old) (F.heard files.new) (exit_status result) }
{
    let crew = Crew {
        rt,
        lookout: &NoLookout,
        workers: 1,
        seed,
    };
    let Status(status) = vet(alloc, words, files, out, &crew);
    ExitCode::from(status)
}

/// Hands in an app where the words ask for that, over these files, this output and this caller; `None` where they ask
/// for something else. What `submit` says of its status is so of the exit status.
pub fn submitted<F: Files, O: Sink, N: Caller>(
    alloc: Global,
    words: &[String],
    files: &mut F,
    out: &mut O,
    caller: &mut N,
) -> Option<ExitCode>
    // The exit status, the printed text and what was dialled and written are those that are due to the words, unless a
    // read or the put failed in this very call, or memory ran out. Where the words are no `submit` nothing is dialled.
    ensures answers { Answers (parse_submit (map string_bytes words.now))
        (seen (F.told files.old) (F.fault_count files.old) (F.heard files.old) (O.taken out.old)
        (O.fault_count out.old) (O.handed out.old) (N.told caller.old) (N.fault_count caller.old))
        (seen (F.told files.new) (F.fault_count files.new) (F.heard files.new) (O.taken out.new)
        (O.fault_count out.new) (O.handed out.new) (N.told caller.new) (N.fault_count caller.new))
        (option_map (λ code. status (exit_status code)) result) }
{
    let ClientStatus(status) = submit(alloc, words, files, out, caller)?;
    Some(ExitCode::from(status))
}

/// Hands in an app where the words ask for that, and else judges as they ask, over these files, this output and this
/// caller, with threads of the system.
pub fn answered_without_desk<F: Files, O: Sink, N: Caller, T: Threads + Wait + Sync>(
    alloc: Global,
    words: &[String],
    files: &mut F,
    out: &mut O,
    caller: &mut N,
    rt: &T,
    seed: u64,
) -> ExitCode
    // It ends as is due to what the words ask for.
    ensures { Runs (task_of (map string_bytes words.now))
        (seen (F.told files.old) (F.fault_count files.old) (F.heard files.old) (O.taken out.old)
        (O.fault_count out.old) (O.handed out.old) (N.told caller.old) (N.fault_count caller.old))
        (seen (F.told files.new) (F.fault_count files.new) (F.heard files.new) (O.taken out.new)
        (O.fault_count out.new) (O.handed out.new) (N.told caller.new) (N.fault_count caller.new))
        (exit_status result) }
{
    match submitted(alloc, words, files, out, caller) {
        Some(code) => code,
        None => vetted(alloc, words, files, out, rt, seed),
    }
}

/// The program without the desk: it answers the words that the system gave, over these files, this output and this
/// caller, with threads and a seed of the system. Words that cannot be read are no command, and the exit status is 7
/// where memory ran out while they were read.
pub fn program<F: Files, O: Sink, N: Caller, T: RandomSource + Threads + Wait + Sync>(
    alloc: Global,
    given: io::Result<Vec<String>>,
    files: &mut F,
    out: &mut O,
    caller: &mut N,
    rt: &T,
) -> ExitCode
    // It ends as is due to what the words ask for; where there was no memory for them nothing is done.
    ensures { RunsGiven given (λ words. Runs (task_of words)
        (seen (F.told files.old) (F.fault_count files.old) (F.heard files.old) (O.taken out.old)
        (O.fault_count out.old) (O.handed out.old) (N.told caller.old) (N.fault_count caller.old))
        (seen (F.told files.new) (F.fault_count files.new) (F.heard files.new) (O.taken out.new)
        (O.fault_count out.new) (O.handed out.new) (N.told caller.new) (N.fault_count caller.new))
        (exit_status result))
        ((exit_status result ≡ 7) × (seen (F.told files.new) (F.fault_count files.new) (F.heard files.new)
        (O.taken out.new) (O.fault_count out.new) (O.handed out.new) (N.told caller.new) (N.fault_count caller.new)
        ≡ seen (F.told files.old) (F.fault_count files.old) (F.heard files.old) (O.taken out.old)
        (O.fault_count out.old) (O.handed out.old) (N.told caller.old) (N.fault_count caller.old))) }
{
    match words_given(alloc, given) {
        Ok(words) => answered_without_desk(alloc, &words, files, out, caller, rt, seed_of(rt)),
        Err(status) => ExitCode::from(status.0),
    }
}

/// Runs the program without the desk over the words, the files, the output and the ports of the system.
pub fn run<R>(rt: R) -> ExitCode
where
    R: SystemFiles
        + Env
        + RandomSource
        + Print
        + Net
        + Clock
        + AllocGlobal
        + Threads
        + Wait
        + Sync
        + Copy
        + Drop,
{
    let alloc = rt.alloc();
    let mut files = Hearing::over(HostFiles::new(rt));
    let mut out = Handing::over(StandardSink::new(rt));
    let mut caller = TcpCaller::new(rt);
    program(
        alloc,
        words_of(&rt, alloc),
        &mut files,
        &mut out,
        &mut caller,
        &rt,
    )
}
