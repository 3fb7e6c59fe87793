//! The top call.

ghost use Rattle.std.specs.Prelude.{◌≡◌, Some, map, string_bytes, IfOk};
ghost use Rattle.desk_words.specs.Words.{parse};
ghost use Rattle.vetting_desk.specs.Answer.{SaysClear, IsSafe, SaysFound};
ghost use Rattle.vetting_desk.specs.Due.{due_of};
ghost use Rattle.vetting_desk.specs.Found.{TheDue, Says, file_of};
ghost use Rattle.app_folder.specs.Outside.{outside};
ghost use Rattle.vetting_desk.specs.Top.{PutsText, WritesDue, status_of_write, Finishes};
ghost use Rattle.vetting_desk.specs.Top.{Ends, EndsAsDue, EndsAsRead, EndsAsOnlyDue, PrintsFullReport, HandsClear, TakesClear};

use crate::answer::{Answer, Status, read_fault, status_saying, text_saying};
use crate::finding::{Found, found_in};
use heard_files::{Files, Sink};
use std::alloc::Global;
use std::marker::Sync;
use std::sync::Wait;
use std::thread::Threads;
use vet_base::{FileFault, Memory, PutFault};
use worker_pool::{Crew, Lookout};

/// The status and the text that say what was found.
fn saying(alloc: Global, found: &Found) -> Result<(Status, Vec<u8>), Memory>
    ensures { IfOk result (λ said. Says found.now said.0.0 said.1.items) }
{
    match found {
        Found::Said(answer) => Ok((status_saying(answer), text_saying(alloc, answer)?)),
        Found::ReadFault(name) => Ok((Status(5), read_fault(alloc, name.as_bytes())?)),
        Found::Memory => Err(Memory),
    }
}

fn status_of_write(fault: FileFault) -> Status
    ensures { result ≡ status_of_write fault }
{
    match fault {
        FileFault::Absent => Status(6),
        FileFault::TooLong => Status(6),
        FileFault::Failed => Status(6),
        FileFault::Memory => Status(7),
    }
}

fn write_file<F: Files>(
    alloc: Global,
    files: &mut F,
    path: &str,
    bytes: &[u8],
) -> Result<(), Status>
    ensures writes { WritesDue (Some (path.now, bytes.now)) (F.told files.old) (F.told files.new)
        (F.fault_count files.old) (F.fault_count files.new) result }
    ensures heard { F.heard files.new ≡ F.heard files.old }
{
    match files.write(alloc, path, bytes) {
        Ok(()) => Ok(()),
        Err(fault) => Err(status_of_write(fault)),
    }
}

/// Writes the file that is due with the answer, if any.
fn write_due<F: Files>(alloc: Global, files: &mut F, answer: &Answer) -> Result<(), Status>
    ensures writes { WritesDue (due_of answer.now).written (F.told files.old) (F.told files.new)
        (F.fault_count files.old) (F.fault_count files.new) result }
    ensures heard { F.heard files.new ≡ F.heard files.old }
{
    match answer {
        Answer::Usage => Ok(()),
        Answer::Vetted(_) => Ok(()),
        Answer::Certified(_, path, bytes) => {
            write_file(alloc, files, path.as_str(), bytes.as_slice())
        }
        Answer::NoCertificate(_) => Ok(()),
        Answer::LongCertificate(_) => Ok(()),
        Answer::Uncertified(_) => Ok(()),
        Answer::Storied(_, _) => Ok(()),
        Answer::Made(_, _, _) => Ok(()),
    }
}

/// Writes the file that is due with what was found, if any.
fn written<F: Files>(alloc: Global, files: &mut F, found: &Found) -> Result<(), Status>
    ensures writes { WritesDue (file_of found.now) (F.told files.old) (F.told files.new)
        (F.fault_count files.old) (F.fault_count files.new) result }
    ensures heard { F.heard files.new ≡ F.heard files.old }
{
    match found {
        Found::Said(answer) => write_due(alloc, files, answer),
        Found::ReadFault(_) => Ok(()),
        Found::Memory => Ok(()),
    }
}

fn printed<O: Sink>(alloc: Global, out: &mut O, status: Status, text: &[u8]) -> Status
    ensures { PutsText (O.taken out.old) (O.taken out.new) (O.fault_count out.old) (O.fault_count out.new)
        (O.handed out.old) (O.handed out.new) status text.now result }
{
    match out.put(alloc, text) {
        Ok(()) => status,
        Err(PutFault::Failed) => Status(6),
        Err(PutFault::Memory) => Status(7),
    }
}

/// Writes the file that is due with what was found, if any, and prints the text that says what was found.
fn finished<F: Files, O: Sink>(alloc: Global, files: &mut F, out: &mut O, found: &Found) -> Status
    ensures finishes { Finishes found.now
        (outside (F.told files.old) (F.fault_count files.old) (O.taken out.old) (O.fault_count out.old)
        (O.handed out.old))
        (outside (F.told files.new) (F.fault_count files.new) (O.taken out.new) (O.fault_count out.new)
        (O.handed out.new)) result }
    ensures heard { F.heard files.new ≡ F.heard files.old }
{
    match saying(alloc, found) {
        Ok((status, text)) => match written(alloc, files, found) {
            Ok(()) => printed(alloc, out, status, &text),
            Err(fault) => fault,
        },
        Err(_) => Status(7),
    }
}

/// Finds what the words and the files come to, writes the file that is due, if any, and prints the answer. It is proved
/// how that ends; `vet` proves from it alone what is due, and what that says of an app.
fn run<F: Files, O: Sink, T: Threads + Wait + Sync, L: Lookout>(
    alloc: Global,
    words: &[String],
    files: &mut F,
    out: &mut O,
    crew: &Crew<'_, T, L>,
) -> Status
    ensures { Ends (TheDue (parse (map string_bytes words.now))
        (record { files = F.told files.old; printed = O.taken out.old }) (F.heard files.old) (F.heard files.new))
        (parse (map string_bytes words.now))
        (outside (F.told files.old) (F.fault_count files.old) (O.taken out.old) (O.fault_count out.old)
        (O.handed out.old))
        (outside (F.told files.new) (F.fault_count files.new) (O.taken out.new) (O.fault_count out.new)
        (O.handed out.new)) result.0 }
{
    let found = found_in(alloc, words, files, crew);
    finished(alloc, files, out, &found)
}

/// Runs the words over files, and prints the answer to a sink as one text that ends with one line feed and goes out in
/// one put.
///
/// The words are `check DIR WORKERS`, which judges the app in a folder; `certify DIR CERT`, which also writes the table
/// of what follows in the app to a file, as a certificate, before it prints; `recheck DIR CERT`, which judges the app
/// by the table of a certificate that anyone may have made; `story DIR`, which judges as `check` does with one worker,
/// and prints a story of each finding behind the report; or `make SEED SIZE WORKERS`, which judges an app that is drawn
/// from a seed, and prints a summary in place of the report: how many methods, rows and findings there are, and the
/// outcome's word. Where an app is refused or too large no certificate is written, and no story is told.
///
/// The status is:
/// - 0, clear: the folder that the words name gives the parts of an app that is safe, that is, no run of the machine
///   brings a value of a listed source to a listed sink unless the declaration names that pair, or comes to what is not
///   modelled. The first reads of this call gave those parts, of any files; and where the files tell what they hold,
///   they hold them. For `make` the generated app is safe. The report is printed, as it is for 1 to 3, or the summary.
/// - 1, flagged: a value of a source may come to a sink, and the declaration does not name the pair.
/// - 2, undecided: a run may come to what is not modelled, or the app is too large.
/// - 3, refused: a file is absent or too long, that of the certificate too, or the parts are no app.
/// - 4: the words are no command. A line that says so is printed.
/// - 5: a read of a file of this command failed in this call. A line with the file's name is printed.
/// - 6: the put failed in this call, and a front of the text that was due was printed; where that has the word `clear`,
///   the app is safe as for 0. Or the write of the certificate failed in this call, its file has its old bytes or a
///   front of the new ones, and nothing was printed.
/// - 7: memory ran out, or a hostile app would list more than is allowed, which is answered alike. Nothing was
///   printed; a certificate that was due is written or not.
/// - 9: the certificate is refused: its bytes are none, or it is about other files, or its table is no table of the app
///   that holds all that follows. A line that says which is printed.
///
/// The crew finds what follows in an app: `check` and `make` with WORKERS workers, from 1 to 16, `story` with one, and
/// `certify` with as many as it has. No answer depends on it, or on how its workers take turns.
pub fn vet<F: Files, O: Sink, T: Threads + Wait + Sync, L: Lookout>(
    alloc: Global,
    words: &[String],
    files: &mut F,
    out: &mut O,
    crew: &Crew<'_, T, L>,
) -> Status
    // The status, the printed text and the files are those that are due to the words, unless a read or the put failed
    // in this very call, or memory ran out.
    ensures ends { EndsAsDue (parse (map string_bytes words.now))
        (outside (F.told files.old) (F.fault_count files.old) (O.taken out.old) (O.fault_count out.old)
        (O.handed out.old))
        (outside (F.told files.new) (F.fault_count files.new) (O.taken out.new) (O.fault_count out.new)
        (O.handed out.new)) result.0 }

    // So they are by what the reads of this very call gave, of any files: the files of the folder in their order, or up
    // to the one for which the app is refused, and for `recheck` the certificate.
    ensures reads { EndsAsRead (parse (map string_bytes words.now))
        (outside (F.told files.old) (F.fault_count files.old) (O.taken out.old) (O.fault_count out.old)
        (O.handed out.old))
        (outside (F.told files.new) (F.fault_count files.new) (O.taken out.new) (O.fault_count out.new)
        (O.handed out.new))
        (F.heard files.old) (F.heard files.new) result.0 }

    // Nothing else is due, where the files tell what they hold, but that a finding may have several right stories.
    ensures only { EndsAsOnlyDue (parse (map string_bytes words.now))
        (outside (F.told files.old) (F.fault_count files.old) (O.taken out.old) (O.fault_count out.old)
        (O.handed out.old))
        (outside (F.told files.new) (F.fault_count files.new) (O.taken out.new) (O.fault_count out.new)
        (O.handed out.new)) result.0 }

    // Clear is a theorem about the very bytes that the first reads of this call gave, of any files.
    ensures sound { SaysClear (parse (map string_bytes words.now)) result.0 →
        IsSafe (parse (map string_bytes words.now)) (record { files = F.told files.old; printed = O.taken out.old })
        (F.heard files.old) (F.heard files.new) }

    // So it is wherever the word `clear` was printed, also where the put failed behind it.
    ensures clear { TakesClear (parse (map string_bytes words.now))
        (outside (F.told files.old) (F.fault_count files.old) (O.taken out.old) (O.fault_count out.old)
        (O.handed out.old))
        (outside (F.told files.new) (F.fault_count files.new) (O.taken out.new) (O.fault_count out.new)
        (O.handed out.new)) →
        IsSafe (parse (map string_bytes words.now)) (record { files = F.told files.old; printed = O.taken out.old })
        (F.heard files.old) (F.heard files.new) }

    // So it is wherever that word was handed to the output, of any output.
    ensures handed { HandsClear (parse (map string_bytes words.now))
        (outside (F.told files.old) (F.fault_count files.old) (O.taken out.old) (O.fault_count out.old)
        (O.handed out.old))
        (outside (F.told files.new) (F.fault_count files.new) (O.taken out.new) (O.fault_count out.new)
        (O.handed out.new)) →
        IsSafe (parse (map string_bytes words.now)) (record { files = F.told files.old; printed = O.taken out.old })
        (F.heard files.old) (F.heard files.new) }

    // Flagged and undecided leave out nothing that a run of the app does, unless the app is too large.
    ensures full { SaysFound (parse (map string_bytes words.now)) result.0 →
        PrintsFullReport (parse (map string_bytes words.now))
        (outside (F.told files.old) (F.fault_count files.old) (O.taken out.old) (O.fault_count out.old)
        (O.handed out.old))
        (outside (F.told files.new) (F.fault_count files.new) (O.taken out.new) (O.fault_count out.new)
        (O.handed out.new)) (F.heard files.old) (F.heard files.new) result.0 }
{
    run(alloc, words, files, out, crew)
}
