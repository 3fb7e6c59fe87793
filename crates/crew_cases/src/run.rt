use crate::watch::{Duty, Watch};
use case_keeper::MemKeeper;
use desk_links::{FixedClock, MemDoor};
use desk_service::{Outside, serve};
use heard_files::{Handing, Hearing};
use serving_lines::bytes_of;
use std::alloc::{AllocError, Global};
use std::marker::Sync;
use std::sync::Wait;
use std::thread::Threads;
use std::{fs, io};
use vet_base::{MemFiles, MemSink, Memory, Name};
use vetting_desk::vet;
use worker_pool::Crew;

/// What a run begins with: the words, how many work in the crew and what the watch does, the files, what comes on each
/// connection, and the calls at which files, sink and door fail.
#[derive(Drop)]
pub struct Run {
    words: Vec<String>,
    workers: u8,
    duty: Duty,
    files: Vec<(Name, Vec<u8>)>,
    come: Vec<Vec<u8>>,
    files_fail: Vec<u64>,
    sink_fails: Vec<u64>,
    door_fails: Vec<u64>,
}

/// Want of memory as the system tells it.
pub fn want(_memory: Memory) -> AllocError {
    AllocError
}

/// A file.
pub fn file(alloc: Global, path: &str, bytes: Vec<u8>) -> Result<(Name, Vec<u8>), AllocError> {
    let name = Name::from_bytes(alloc, path.as_bytes()).map_err(want)?;
    Ok((name, bytes))
}

/// The words of a text, of which `_` is an empty one.
pub fn words_of(alloc: Global, text: &str) -> Result<Vec<String>, AllocError> {
    let mut words = Vec::new(alloc);
    for word in text.split_whitespace() {
        words.push(String::from_str(alloc, if word == "_" { "" } else { word })?)?;
    }
    Ok(words)
}

/// A run without words and files, by one worker.
fn new_run(alloc: Global) -> Run {
    Run {
        words: Vec::new(alloc),
        workers: 1,
        duty: Duty::Nothing,
        files: Vec::new(alloc),
        come: Vec::new(alloc),
        files_fail: Vec::new(alloc),
        sink_fails: Vec::new(alloc),
        door_fails: Vec::new(alloc),
    }
}

/// Takes a line: `words WORD..`; `workers N` of the crew; `meet`, `hold` or `count`, what the watch does; `here PATH`,
/// a file that lies here, or `file PATH TEXT`; `> TEXT`, what comes on a connection; `files_fail N`, `sink_fails N`,
/// `door_fails N`. Any other line says nothing.
fn set(rt: &HostRuntime, run: &mut Run, line: &str) -> io::Result<()> {
    let alloc = rt.alloc();
    let (key, text) = line.split_once(" ").unwrap_or((line, ""));
    let number = text.parse::<u8>().unwrap_or(0);
    match key {
        "words" => run.words = words_of(alloc, text)?,
        "workers" => run.workers = number,
        "meet" => run.duty = Duty::Meet,
        "hold" => run.duty = Duty::Hold,
        "count" => run.duty = Duty::Count,
        "here" => run.files.push(file(alloc, text, fs::read(rt, text)?)?)?,
        "file" => {
            let (path, text) = text.split_once(" ").unwrap_or((text, ""));
            run.files.push(file(alloc, path, bytes_of(alloc, text)?)?)?;
        }
        ">" => run.come.push(bytes_of(alloc, text)?)?,
        "files_fail" => run.files_fail.push(u64::from(number))?,
        "sink_fails" => run.sink_fails.push(u64::from(number))?,
        "door_fails" => run.door_fails.push(u64::from(number))?,
        _ => {}
    }
    Ok(())
}

/// What a run begins with by its lines.
pub fn run_of(rt: &HostRuntime, lines: &str) -> io::Result<Run> {
    let mut run = new_run(rt.alloc());
    for line in lines.lines() {
        set(rt, &mut run, line)?;
    }
    Ok(run)
}

/// How a run ends, of `serve` where its words are these and else of
/// `vet`: what is printed, what the watch tells, and the status.
pub fn end_of<T: Threads + Wait + Sync>(
    alloc: Global,
    rt: &T,
    run: Run,
) -> Result<String, AllocError> {
    let watch = Watch::new(run.duty);
    let crew = Crew {
        rt,
        lookout: &watch,
        workers: run.workers,
        seed: 1,
    };
    let door = MemDoor::new(alloc, run.come, Vec::new(alloc), 4096, run.door_fails).map_err(want)?;
    let mut outside = Outside {
        files: Hearing::over(MemFiles::new(run.files, run.files_fail)),
        out: Handing::over(MemSink::new(alloc, run.sink_fails)),
        keeper: MemKeeper::new(alloc),
        door,
        clock: FixedClock::new(100),
    };
    let status = match serve(alloc, &run.words, &mut outside, &crew) {
        Some(status) => status.0,
        None => vet(
            alloc,
            &run.words,
            &mut outside.files,
            &mut outside.out,
            &crew,
        )
        .0,
    };
    let printed = std::str::from_utf8(outside.out.sink().taken()).unwrap_or("?");
    let told = watch.told(alloc)?;
    format!(in alloc; "{printed}{told}status {status}")
}
