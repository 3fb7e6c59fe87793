//! What the words and the files come to, before anything is written or printed.

ghost use Rattle.std.specs.Prelude.{◌≡◌, ◌<◌, ◌≤◌, ℕ, List, Option, Some, map, string_bytes};
ghost use Rattle.vet_base.specs.Outside.{Told};
ghost use Rattle.heard_files.specs.Outside.{Entry};
ghost use Rattle.desk_words.specs.Words.{Check, Certify, Recheck, Story, Make, parse};
ghost use Rattle.vetting_desk.specs.Found.{IsFound, FindsByFile, HearsFile, said, halted, unread};
ghost use Rattle.app_folder.specs.Reading.{AreShort};

use crate::answer::Answer;
use crate::asked::{certified, checked, rechecked, storied};
use crate::making::made;
use app_folder::{Halt, parts_in};
use desk_words::{Vetting, vetting_in};
use heard_files::Files;
use office_forms::one_form_or_fault;
use std::alloc::Global;
use std::marker::Sync;
use std::sync::Wait;
use std::thread::Threads;
use verdict::{Outcome, Parts};
use vet_base::{FileFault, Memory};
use worker_pool::{Crew, Lookout};

/// A certificate has at most so many bytes.
const CERTIFICATE_LIMIT: u64 = 536_870_912;

/// What a run found before it writes and prints.
#[derive(Drop)]
pub enum Found {
    Said(Answer),
    /// The read of the file of this name failed.
    ReadFault(String),
    Memory,
}

fn said(answer: Result<Answer, Memory>) -> Found
    ensures { result ≡ said answer }
{
    match answer {
        Ok(answer) => Found::Said(answer),
        Err(_) => Found::Memory,
    }
}

fn halted(halt: Halt) -> Found
    ensures { result ≡ halted halt }
{
    match halt {
        Halt::Refused(part, reason) => {
            Found::Said(Answer::Vetted(Outcome::Refused(part, reason)))
        }
        Halt::ReadFault(name) => Found::ReadFault(name),
        Halt::Memory => Found::Memory,
    }
}

/// What `check` finds in a folder.
fn found_by_check<F: Files, T: Threads + Wait + Sync, L: Lookout>(
    alloc: Global,
    dir: &str,
    workers: u8,
    files: &mut F,
    crew: &Crew<'_, T, L>,
) -> Found
    ensures { IsFound (Some (Check dir.now workers)) (F.told files.old) (F.told files.new)
        (F.fault_count files.old) (F.fault_count files.new) (F.heard files.old) (F.heard files.new) result }
{
    one_form_or_fault();
    match parts_in(alloc, files, dir) {
        Ok(parts) => said(checked(alloc, &parts, &crew.of(workers))),
        Err(halt) => halted(halt),
    }
}

/// What `certify` finds in a folder.
fn found_by_certify<F: Files, T: Threads + Wait + Sync, L: Lookout>(
    alloc: Global,
    dir: &str,
    path: &str,
    files: &mut F,
    crew: &Crew<'_, T, L>,
) -> Found
    ensures { IsFound (Some (Certify dir.now path.now)) (F.told files.old) (F.told files.new)
        (F.fault_count files.old) (F.fault_count files.new) (F.heard files.old) (F.heard files.new) result }
{
    one_form_or_fault();
    match parts_in(alloc, files, dir) {
        Ok(parts) => said(certified(alloc, &parts, path, crew)),
        Err(halt) => halted(halt),
    }
}

fn unread(path: String, fault: FileFault) -> Found
    ensures { result ≡ unread path fault }
{
    match fault {
        FileFault::Absent => Found::Said(Answer::NoCertificate(path)),
        FileFault::TooLong => Found::Said(Answer::LongCertificate(path)),
        FileFault::Failed => Found::ReadFault(path),
        FileFault::Memory => Found::Memory,
    }
}

/// What is found of parts by the certificate at this path.
fn found_by_file<F: Files>(
    alloc: Global,
    parts: &Parts,
    path: String,
    files: &mut F,
    seed: u64,
) -> Found
    requires { AreShort parts.now }
    ensures finds { FindsByFile (string_bytes path) parts.now (F.told files.old) (F.told files.new)
        (F.fault_count files.old) (F.fault_count files.new) result }
    ensures heard { HearsFile (string_bytes path) parts.now (F.heard files.old) (F.heard files.new) result }
{
    match files.read(alloc, path.as_str(), CERTIFICATE_LIMIT) {
        Ok(bytes) => said(rechecked(alloc, parts, &bytes, seed)),
        Err(fault) => unread(path, fault),
    }
}

/// What `recheck` finds in a folder by a certificate.
fn found_by_recheck<F: Files>(
    alloc: Global,
    dir: &str,
    path: &str,
    files: &mut F,
    seed: u64,
) -> Found
    ensures { IsFound (Some (Recheck dir.now path.now)) (F.told files.old) (F.told files.new)
        (F.fault_count files.old) (F.fault_count files.new) (F.heard files.old) (F.heard files.new) result }
{
    one_form_or_fault();
    let Ok(path) = String::from_str(alloc, path) else {
        return Found::Memory;
    };
    match parts_in(alloc, files, dir) {
        Ok(parts) => found_by_file(alloc, &parts, path, files, seed),
        Err(halt) => halted(halt),
    }
}

/// What `story` finds in a folder.
fn found_by_story<F: Files, T: Threads + Wait + Sync, L: Lookout>(
    alloc: Global,
    dir: &str,
    files: &mut F,
    crew: &Crew<'_, T, L>,
) -> Found
    ensures { IsFound (Some (Story dir.now)) (F.told files.old) (F.told files.new)
        (F.fault_count files.old) (F.fault_count files.new) (F.heard files.old) (F.heard files.new) result }
{
    one_form_or_fault();
    match parts_in(alloc, files, dir) {
        Ok(parts) => said(storied(alloc, &parts, &crew.of(1))),
        Err(halt) => halted(halt),
    }
}

/// What `make` finds, whatever the files tell.
fn found_by_make<T: Threads + Wait + Sync, L: Lookout>(
    alloc: Global,
    app_seed: u32,
    size: u32,
    workers: u8,
    crew: &Crew<'_, T, L>,
) -> Found
    requires app_seed { app_seed < 2147483648 }
    requires some { 1 ≤ size }
    requires most { size ≤ 2000 }
    ensures { (told : Option Told) (count : ℕ) (heard : List Entry)
        → IsFound (Some (Make app_seed size workers)) told told count count heard heard result }
{
    said(made(alloc, app_seed, size, workers, crew))
}

/// What the words find.
pub fn found_in<F: Files, T: Threads + Wait + Sync, L: Lookout>(
    alloc: Global,
    words: &[String],
    files: &mut F,
    crew: &Crew<'_, T, L>,
) -> Found
    ensures { IsFound (parse (map string_bytes words.now)) (F.told files.old) (F.told files.new)
        (F.fault_count files.old) (F.fault_count files.new) (F.heard files.old) (F.heard files.new) result }
{
    match vetting_in(words) {
        None => Found::Said(Answer::Usage),
        Some(Vetting::Check(dir, workers)) => found_by_check(alloc, dir, workers, files, crew),
        Some(Vetting::Certify(dir, path)) => found_by_certify(alloc, dir, path, files, crew),
        Some(Vetting::Recheck(dir, path)) => found_by_recheck(alloc, dir, path, files, crew.seed),
        Some(Vetting::Story(dir)) => found_by_story(alloc, dir, files, crew),
        Some(Vetting::Make(app_seed, size, workers)) => {
            found_by_make(alloc, app_seed, size, workers, crew)
        }
    }
}
