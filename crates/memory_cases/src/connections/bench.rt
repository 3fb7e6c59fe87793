use crate::connections::store::Store;
use desk_links::MemDoor;
use desk_serving::Desk;
use serving_lines::{FirstByte, bytes_of, desk};
use std::alloc::{AllocError, Global};
use vet_base::Memory;

/// How the bytes of a line come.
#[derive(Clone, Copy, Debug, PartialEq, Eq)]
pub enum Way {
    /// On one connection.
    Once,
    /// Each front of them but the whole on a connection of its own.
    EachFront,
    /// On connections that take one byte of the reply, two, and so on.
    EachRoom,
    /// On connections that fail at the first call, the second, and so on.
    EachCall,
    /// On one connection of a door.
    Door,
}

/// How links and doors are: the sizes of reads, how many bytes a connection takes, and at which calls they fail.
#[derive(Drop)]
pub struct Outside {
    pub pieces: Vec<usize>,
    pub room: usize,
    pub failing: Vec<u64>,
}

/// A desk with its store, and what the lines of a file have said so far.
#[derive(Drop)]
pub struct Bench {
    pub desk: Desk<FirstByte>,
    pub store: Store,
    /// The call at which the store fails, where it is not the file that says so.
    pub call: Option<u64>,
    pub day: u32,
    pub outside: Outside,
    pub title: String,
    pub way: Way,
    /// What comes: on the one connection, or on the connections of a door.
    pub inputs: Vec<Vec<u8>>,
    pub door: Option<MemDoor>,
    /// How many connections of the door are taken at most.
    pub most: u32,
    /// How many connections of the door were looked at.
    pub looked_at: usize,
    /// What is replied where the store failed.
    pub store_failed: Vec<u8>,
    /// How many replies were those that are due.
    pub due: u64,
}

/// Want of memory as the system tells it.
pub fn want(_memory: Memory) -> AllocError {
    AllocError
}

/// Links that give all at once, take 4,096 bytes and never fail.
fn plain_links(alloc: Global) -> Outside {
    Outside {
        pieces: Vec::new(alloc),
        room: 4096,
        failing: Vec::new(alloc),
    }
}

/// A store that fails at this call, where there is one.
fn store(alloc: Global, call: Option<u64>) -> Result<Store, AllocError> {
    let mut calls = Vec::new(alloc);
    if let Some(call) = call {
        calls.push(call)?;
    }
    Ok(Store::failing(alloc, calls))
}

/// The desk of this edition.
fn desk_of(alloc: Global, edition: u8) -> Result<Desk<FirstByte>, AllocError> {
    desk(alloc, edition).map_err(want)
}

/// A bench of a desk and its store on day 100.
fn bench_of(alloc: Global, desk: Desk<FirstByte>, store: Store, call: Option<u64>) -> Bench {
    Bench {
        desk,
        store,
        call,
        day: 100,
        outside: plain_links(alloc),
        title: String::new(alloc),
        way: Way::Once,
        inputs: Vec::new(alloc),
        door: None,
        most: 0,
        looked_at: 0,
        store_failed: Vec::new(alloc),
        due: 0,
    }
}

/// A bench on day 100 under the edition 1, with a store that fails at this call.
pub fn new_bench(alloc: Global, call: Option<u64>) -> Result<Bench, AllocError> {
    let store = store(alloc, call)?;
    let desk = desk_of(alloc, 1)?;
    Ok(bench_of(alloc, desk, store, call))
}

/// The numbers in a text.
fn numbers_of(alloc: Global, text: &str) -> Result<Vec<u64>, AllocError> {
    let mut numbers = Vec::new(alloc);
    for word in text.split_whitespace() {
        numbers.push(word.parse::<u64>().unwrap_or(0))?;
    }
    Ok(numbers)
}

/// Puts a size, or one that stands N times, where the word is `N*SIZE`.
fn push_sizes(sizes: &mut Vec<usize>, word: &str) -> Result<(), AllocError> {
    let (times, size) = word.split_once("*").unwrap_or(("1", word));
    let size = usize::from(size.parse::<u16>().unwrap_or(0));
    for _ in 0..times.parse::<u16>().unwrap_or(0) {
        sizes.push(size)?;
    }
    Ok(())
}

/// The sizes in a text.
fn sizes_of(alloc: Global, text: &str) -> Result<Vec<usize>, AllocError> {
    let mut sizes = Vec::new(alloc);
    for word in text.split_whitespace() {
        push_sizes(&mut sizes, word)?;
    }
    Ok(sizes)
}

/// Begins a case.
fn begin(alloc: Global, bench: &mut Bench, title: &str) -> Result<(), AllocError> {
    bench.title = String::from_str(alloc, title)?;
    bench.outside = plain_links(alloc);
    bench.way = Way::Once;
    bench.door = None;
    Ok(())
}

/// Begins a door of which so many connections are taken at most.
fn open_door(alloc: Global, bench: &mut Bench, most: &str) {
    bench.way = Way::Door;
    bench.inputs = Vec::new(alloc);
    bench.door = None;
    bench.looked_at = 0;
    bench.most = most.parse::<u32>().unwrap_or(0);
}

/// Takes a line that says how links are, and gives whether it is one.
fn set_outside(alloc: Global, outside: &mut Outside, line: &str) -> Result<bool, AllocError> {
    if let Some(sizes) = line.strip_prefix("pieces ") {
        outside.pieces = sizes_of(alloc, sizes)?;
    } else if let Some(calls) = line.strip_prefix("failing ") {
        outside.failing = numbers_of(alloc, calls)?;
    } else if let Some(room) = line.strip_prefix("room ") {
        outside.room = usize::from(room.parse::<u16>().unwrap_or(0));
    } else {
        return Ok(false);
    }
    Ok(true)
}

/// Makes the store anew.
fn set_store(alloc: Global, bench: &mut Bench, calls: &str) -> Result<(), AllocError> {
    bench.store = match bench.call {
        Some(_) => store(alloc, bench.call)?,
        None => Store::failing(alloc, numbers_of(alloc, calls)?),
    };
    Ok(())
}

/// Takes a line that says what the desk and its door are, and gives whether it is one.
fn set_desk(alloc: Global, bench: &mut Bench, line: &str) -> Result<bool, AllocError> {
    if let Some(edition) = line.strip_prefix("edition ") {
        bench.desk = desk_of(alloc, edition.parse::<u8>().unwrap_or(0))?;
    } else if let Some(most) = line.strip_prefix("door ") {
        open_door(alloc, bench, most);
    } else if let Some(reply) = line.strip_prefix("store failed ") {
        bench.store_failed = bytes_of(alloc, reply)?;
    } else {
        return set_outside(alloc, &mut bench.outside, line);
    }
    Ok(true)
}

/// Takes a line that says how all is, and gives whether it is one.
pub fn set(alloc: Global, bench: &mut Bench, line: &str) -> Result<bool, AllocError> {
    if let Some(title) = line.strip_prefix("## ") {
        begin(alloc, bench, title)?;
    } else if let Some(calls) = line.strip_prefix("keeper") {
        set_store(alloc, bench, calls)?;
    } else if let Some(day) = line.strip_prefix("day ") {
        bench.day = day.parse::<u32>().unwrap_or(0);
    } else {
        return set_desk(alloc, bench, line);
    }
    Ok(true)
}

/// Takes bytes that come.
fn come(alloc: Global, bench: &mut Bench, way: Way, text: &str) -> Result<(), AllocError> {
    bench.way = way;
    if way != Way::Door {
        bench.inputs = Vec::new(alloc);
    }
    bench.inputs.push(bytes_of(alloc, text)?)?;
    Ok(())
}

/// How the bytes come where a line begins with `> `, after a line with bytes that came so.
fn next_way(way: Way) -> Way {
    match way {
        Way::Door => Way::Door,
        _ => Way::Once,
    }
}

/// How the bytes of a line come, and their text; nothing of a line that says something else.
fn way_and_text(way: Way, line: &str) -> Option<(Way, &str)> {
    if let Some(text) = line.strip_prefix("> ") {
        Some((next_way(way), text))
    } else if let Some(text) = line.strip_prefix("each front of ") {
        Some((Way::EachFront, text))
    } else if let Some(text) = line.strip_prefix("each room of ") {
        Some((Way::EachRoom, text))
    } else if let Some(text) = line.strip_prefix("each call of ") {
        Some((Way::EachCall, text))
    } else {
        None
    }
}

/// Takes a line that says what comes, and gives whether it is one.
pub fn ask(alloc: Global, bench: &mut Bench, line: &str) -> Result<bool, AllocError> {
    let Some((way, text)) = way_and_text(bench.way, line) else {
        return Ok(false);
    };
    come(alloc, bench, way, text)?;
    Ok(true)
}
