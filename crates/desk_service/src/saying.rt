//! What a run comes to before it prints.
ghost use Rattle.std.specs.Prelude.{◌≡◌, Err, IfOk};
ghost use Rattle.sha2.specs.Sha256.{sha256};
ghost use Rattle.vet_base.specs.Outside.{HasRisen};
ghost use Rattle.desk_serving.specs.Obeying.{TellsDocket};
ghost use Rattle.desk_serving.specs.Serving.{outside as desk_outside};
ghost use Rattle.desk_service.specs.Judging.{IsJudged};
ghost use Rattle.desk_service.specs.Opening.{opened_of};
ghost use Rattle.desk_service.specs.Saying.{HaltSays, TakenSays, SaysAs, Says};
ghost use Rattle.desk_service.specs.Serving.{seen, ServesDesk};
ghost use Rattle.desk_words.specs.Serve.{asked_words};

use crate::laws::{a_clear_decision_is_of_a_safe_app, an_added_decision_is_a_verdict};
use crate::lists_judge::{ListsJudge, OfficeLists, judged};
use crate::opening::{Halt, desk_in, path_of};
use crate::outside::{Outside, Status};
use crate::texts::{door_fault, read_fault, refused, served};
use case_keeper::Keeper;
use desk_links::{Clock, Door, DoorFault};
use desk_serving::Desk;
use desk_words::Serving;
use heard_files::{Files, Sink};
use judged_ahead::serve_ahead;
use std::alloc::Global;
use std::marker::Sync;
use std::sync::Wait;
use std::thread::Threads;
use verdict::{Judged as JudgedApp, Parts};
use vet_base::Memory;
use worker_pool::{Crew, Lookout};

/// The status and the text where no desk could be opened.
fn halted(alloc: Global, office: &str, halt: &Halt) -> Result<(Status, Vec<u8>), Memory>
    ensures { SaysAs (HaltSays office.now halt.now) result }
{
    match halt {
        Halt::Refused(paper, unfit) => Ok((Status(3), refused(alloc, *paper, unfit)?)),
        Halt::ReadFault(paper) => {
            let path = path_of(alloc, office, *paper)?;
            Ok((Status(5), read_fault(alloc, path.as_bytes())?))
        }
        Halt::Memory => Err(Memory),
    }
}

/// The status and the text where connections were taken.
fn closed(alloc: Global, taken: Result<u32, DoorFault>) -> Result<(Status, Vec<u8>), Memory>
    ensures { SaysAs (TakenSays taken) result }
{
    match taken {
        Ok(count) => Ok((Status(0), served(alloc, count)?)),
        Err(DoorFault::Failed) => Ok((Status(8), door_fault(alloc)?)),
        Err(DoorFault::Memory) => Err(Memory),
    }
}

/// Takes connections at a desk. With more than one worker what is handed in is judged ahead.
fn taken<F, O, K, D, C, T, L>(
    alloc: Global,
    desk: Desk<OfficeLists>,
    crew: &Crew<'_, T, L>,
    outside: &mut Outside<F, O, K, D, C>,
    most: u32,
) -> Result<u32, DoorFault>
where
    F: Files,
    O: Sink,
    K: Keeper,
    D: Door,
    C: Clock,
    T: Threads + Wait + Sync,
    L: Lookout,
    requires docket { TellsDocket (K.told outside.old.keeper) }
    requires edition { desk.judge.edition ≡ sha256 desk.judge.lists }
    ensures serves { ServesDesk (opened_of desk) (C.told outside.old.clock) most
        (desk_outside (K.told outside.old.keeper) (K.fault_count outside.old.keeper) (D.Link.told outside.old.door)
        (D.Link.fault_count outside.old.door))
        (desk_outside (K.told outside.new.keeper) (K.fault_count outside.new.keeper) (D.Link.told outside.new.door)
        (D.Link.fault_count outside.new.door)) result }
    ensures docket { TellsDocket (K.told outside.new.keeper) }
    ensures cause { result ≡ Err DoorFault.Failed → HasRisen (D.Link.fault_count outside.old.door)
        (D.Link.fault_count outside.new.door) }
    ensures files { outside.new.files ≡ outside.old.files }
    ensures out { outside.new.out ≡ outside.old.out }
{
    a_clear_decision_is_of_a_safe_app();
    an_added_decision_is_a_verdict();
    let workers = desk.office.workers;
    let crew = crew.of(workers);
    let by = |parts: &Parts| -> Result<JudgedApp, Memory>
        ensures { IfOk result (IsJudged parts.now) }
    { judged(alloc, parts, &crew) };
    let desk = Desk {
        office: desk.office,
        judge: ListsJudge {
            lists: desk.judge,
            by,
        },
    };
    serve_ahead(
        crew.rt,
        alloc,
        workers,
        desk,
        &mut outside.keeper,
        &mut outside.door,
        &mut outside.clock,
        most,
    )
}

/// What a run comes to before it prints: its status and its text.
pub(crate) fn said<F, O, K, D, C, T, L>(
    alloc: Global,
    asked: &Serving,
    outside: &mut Outside<F, O, K, D, C>,
    crew: &Crew<'_, T, L>,
) -> Result<(Status, Vec<u8>), Memory>
where
    F: Files,
    O: Sink,
    K: Keeper,
    D: Door,
    C: Clock,
    T: Threads + Wait + Sync,
    L: Lookout,
    requires { TellsDocket (K.told outside.old.keeper) }
    ensures says { Says (asked_words asked.now) (C.told outside.old.clock)
        (seen (F.told outside.old.files) (F.fault_count outside.old.files) (F.heard outside.old.files)
        (O.taken outside.old.out) (O.fault_count outside.old.out) (O.handed outside.old.out)
        (K.told outside.old.keeper) (K.fault_count outside.old.keeper) (D.Link.told outside.old.door)
        (D.Link.fault_count outside.old.door))
        (seen (F.told outside.new.files) (F.fault_count outside.new.files) (F.heard outside.new.files)
        (O.taken outside.new.out) (O.fault_count outside.new.out) (O.handed outside.new.out)
        (K.told outside.new.keeper) (K.fault_count outside.new.keeper) (D.Link.told outside.new.door)
        (D.Link.fault_count outside.new.door)) result }
    ensures docket { TellsDocket (K.told outside.new.keeper) }
    ensures out { outside.new.out ≡ outside.old.out }
{
    match desk_in(alloc, &mut outside.files, asked.office) {
        Ok(desk) => closed(alloc, taken(alloc, desk, crew, outside, asked.most)),
        Err(halt) => halted(alloc, asked.office, &halt),
    }
}
