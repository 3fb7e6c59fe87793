//! Connections, one after the other, with a worker beside them who judges ahead.
ghost use Rattle.std.specs.Prelude.{◌≡◌, Err};
ghost use Rattle.vet_base.specs.Outside.{HasRisen};
ghost use Rattle.case_rules.specs.declared.case.Content.{Content as Files};
ghost use Rattle.case_rules.specs.Desk.{Judgement};
ghost use Rattle.desk_serving.specs.Obeying.{TellsDocket};
ghost use Rattle.desk_serving.specs.Serving.{outside};
ghost use Rattle.desk_serving.specs.Run.{Runs, IsMachineRun, HoldsTalks, CountsAll};
ghost use Rattle.judged_ahead.specs.Serving.{ServesDoor};

use crate::ahead::Ahead;
use crate::finding::Finding;
use crate::shelf::Shelf;
use case_keeper::Keeper;
use desk_links::{Clock, Door, DoorFault};
use desk_serving::{Desk, Judge, serve_door};
use std::alloc::Global;
use std::marker::{Brand, Send, Sync};
use std::sync::Wait;
use std::thread::{Threads, join_mut};
use store_office::Office;

/// Takes connections and serves them, all as one fact.
fn served<K: Keeper, D: Door, C: Clock, J: Judge>(
    alloc: Global,
    desk: &Desk<J>,
    keeper: &mut K,
    door: &mut D,
    clock: &mut C,
    most: u32,
) -> Result<u32, DoorFault>
    requires ready { J.ready desk.now.judge }
    requires docket { TellsDocket (K.told keeper.old) }
    ensures { ServesDoor (J.finds desk.now.judge) desk.now.office (J.edition desk.now.judge) (C.told clock.old) most
        (outside (K.told keeper.old) (K.fault_count keeper.old) (D.Link.told door.old) (D.Link.fault_count door.old))
        (outside (K.told keeper.new) (K.fault_count keeper.new) (D.Link.told door.new) (D.Link.fault_count door.new))
        result }
{
    serve_door(alloc, desk, keeper, door, clock, most)
}

/// The same with one who judges ahead; then nothing more is judged ahead.
fn served_to_end<K: Keeper, D: Door, C: Clock, J: Judge, B: Finding, T: Wait>(
    alloc: Global,
    desk: &Desk<Ahead<J, B, T>>,
    keeper: &mut K,
    door: &mut D,
    clock: &mut C,
    most: u32,
) -> Result<u32, DoorFault>
    requires ready { J.ready desk.now.judge.judge.now }
    requires back { (content : Files) (found : Judgement) → B.finds content found
        → J.finds desk.now.judge.judge.now content found }
    requires docket { TellsDocket (K.told keeper.old) }
    ensures { ServesDoor (J.finds desk.now.judge.judge.now) desk.now.office (J.edition desk.now.judge.judge.now)
        (C.told clock.old) most
        (outside (K.told keeper.old) (K.fault_count keeper.old) (D.Link.told door.old) (D.Link.fault_count door.old))
        (outside (K.told keeper.new) (K.fault_count keeper.new) (D.Link.told door.new) (D.Link.fault_count door.new))
        result }
{
    let taken = served(alloc, desk, keeper, door, clock, most);
    let shelf = desk.judge.shelf;
    shelf.end(desk.judge.rt);
    taken
}

/// The same, with a worker beside who judges what waits. Where no thread can be made for it, it comes when all is over,
/// and all is judged when it is asked for.
fn served_with_worker<B, K, D, C, J, T>(
    rt: &T,
    alloc: Global,
    judge: &J,
    shelf: &Shelf<B>,
    desk: &Desk<Ahead<J, B, T>>,
    keeper: &mut K,
    door: &mut D,
    clock: &mut C,
    most: u32,
) -> Result<u32, DoorFault>
where
    B: Finding + Send + Sync,
    K: Keeper,
    D: Door,
    C: Clock,
    J: Judge + Sync,
    T: Threads + Wait + Sync,
    requires worker { J.ready judge.now }
    requires there { (content : Files) (found : Judgement) → J.finds judge.now content found → B.finds content found }
    requires ready { J.ready desk.now.judge.judge.now }
    requires back { (content : Files) (found : Judgement) → B.finds content found
        → J.finds desk.now.judge.judge.now content found }
    requires docket { TellsDocket (K.told keeper.old) }
    ensures { ServesDoor (J.finds desk.now.judge.judge.now) desk.now.office (J.edition desk.now.judge.judge.now)
        (C.told clock.old) most
        (outside (K.told keeper.old) (K.fault_count keeper.old) (D.Link.told door.old) (D.Link.fault_count door.old))
        (outside (K.told keeper.new) (K.fault_count keeper.new) (D.Link.told door.new) (D.Link.fault_count door.new))
        result }
{
    let mut worker = || -> ()
        requires ready { J.ready judge.now }
        requires there { (content : Files) (found : Judgement) → J.finds judge.now content found
            → B.finds content found }
    { shelf.work(rt, alloc, judge) };
    let mut server = || -> Result<u32, DoorFault>
        requires ready { J.ready desk.now.judge.judge.now }
        requires back { (content : Files) (found : Judgement) → B.finds content found
            → J.finds desk.now.judge.judge.now content found }
        requires docket { TellsDocket (K.told keeper.now) }
        ensures { ServesDoor (J.finds desk.entry.now.judge.judge.now) desk.entry.now.office
            (J.edition desk.entry.now.judge.judge.now) (C.told clock.entry.now) most
            (outside (K.told keeper.entry.now) (K.fault_count keeper.entry.now) (D.Link.told door.entry.now)
            (D.Link.fault_count door.entry.now))
            (outside (K.told keeper.exit.now) (K.fault_count keeper.exit.now) (D.Link.told door.exit.now)
            (D.Link.fault_count door.exit.now)) result }
    { served_to_end(alloc, desk, keeper, door, clock, most) };
    let (_ended, taken) = join_mut(rt, &mut worker, &mut server);
    taken
}

/// The same with a shelf that both reach.
fn served_beside<B, K, D, C, J, T>(
    rt: &T,
    alloc: Global,
    office: Office,
    judge: &J,
    shelf: &Shelf<B>,
    keeper: &mut K,
    door: &mut D,
    clock: &mut C,
    most: u32,
) -> Result<u32, DoorFault>
where
    B: Finding + Send + Sync,
    K: Keeper,
    D: Door,
    C: Clock,
    J: Judge + Sync,
    T: Threads + Wait + Sync,
    requires ready { J.ready judge.now }
    requires there { (content : Files) (found : Judgement) → J.finds judge.now content found → B.finds content found }
    requires back { (content : Files) (found : Judgement) → B.finds content found → J.finds judge.now content found }
    requires docket { TellsDocket (K.told keeper.old) }
    ensures { ServesDoor (J.finds judge.now) office (J.edition judge.now) (C.told clock.old) most
        (outside (K.told keeper.old) (K.fault_count keeper.old) (D.Link.told door.old) (D.Link.fault_count door.old))
        (outside (K.told keeper.new) (K.fault_count keeper.new) (D.Link.told door.new) (D.Link.fault_count door.new))
        result }
{
    let ahead = Ahead { rt, judge, shelf };
    let desk = Desk {
        office,
        judge: ahead,
    };
    served_with_worker(rt, alloc, judge, shelf, &desk, keeper, door, clock, most)
}

/// The same with a new memo.
fn served_by_memo<B, K, D, C, J, T>(
    rt: &T,
    alloc: Global,
    office: Office,
    judge: J,
    keeper: &mut K,
    door: &mut D,
    clock: &mut C,
    most: u32,
) -> Result<u32, DoorFault>
where
    B: Finding + Send + Sync,
    K: Keeper,
    D: Door,
    C: Clock,
    J: Judge + Sync + Drop,
    T: Threads + Wait + Sync,
    requires ready { J.ready judge }
    requires there { (content : Files) (found : Judgement) → J.finds judge content found → B.finds content found }
    requires back { (content : Files) (found : Judgement) → B.finds content found → J.finds judge content found }
    requires docket { TellsDocket (K.told keeper.old) }
    ensures { ServesDoor (J.finds judge) office (J.edition judge) (C.told clock.old) most
        (outside (K.told keeper.old) (K.fault_count keeper.old) (D.Link.told door.old) (D.Link.fault_count door.old))
        (outside (K.told keeper.new) (K.fault_count keeper.new) (D.Link.told door.new) (D.Link.fault_count door.new))
        result }
{
    let shelf = Shelf::<B>::new(alloc);
    served_beside(rt, alloc, office, &judge, &shelf, keeper, door, clock, most)
}

/// Takes connections from a door as `serve_door` does, while a worker beside judges what is in the queue; what it found
/// is taken when a reviewer asks for it. All that `serve_door` promises holds of it. It returns when the worker has
/// ended, with the app that it is at. With one worker for each app nothing is judged ahead.
pub fn serve_ahead<K, D, C, J, T>(
    rt: &T,
    alloc: Global,
    workers: u8,
    desk: Desk<J>,
    keeper: &mut K,
    door: &mut D,
    clock: &mut C,
    most: u32,
) -> Result<u32, DoorFault>
where
    K: Keeper,
    D: Door,
    C: Clock,
    J: Judge + Sync + Drop,
    T: Threads + Wait + Sync,
    // The judge can be asked.
    requires ready { J.ready desk.judge }

    // The keeper's cases, where it tells them, are those of a desk.
    requires docket { TellsDocket (K.told keeper.old) }

    // What `serve_door` promises.
    ensures runs { Runs (J.finds desk.judge) desk.office (J.edition desk.judge) (C.told clock.old) most
        (outside (K.told keeper.old) (K.fault_count keeper.old) (D.Link.told door.old) (D.Link.fault_count door.old))
        (outside (K.told keeper.new) (K.fault_count keeper.new) (D.Link.told door.new) (D.Link.fault_count door.new))
        result }
    ensures machine { IsMachineRun
        (outside (K.told keeper.old) (K.fault_count keeper.old) (D.Link.told door.old) (D.Link.fault_count door.old))
        (outside (K.told keeper.new) (K.fault_count keeper.new) (D.Link.told door.new) (D.Link.fault_count door.new))
        result }
    ensures talks { HoldsTalks desk.office
        (outside (K.told keeper.old) (K.fault_count keeper.old) (D.Link.told door.old) (D.Link.fault_count door.old))
        (outside (K.told keeper.new) (K.fault_count keeper.new) (D.Link.told door.new) (D.Link.fault_count door.new))
        result }
    ensures count { CountsAll most
        (outside (K.told keeper.old) (K.fault_count keeper.old) (D.Link.told door.old) (D.Link.fault_count door.old))
        result }
    ensures docket { TellsDocket (K.told keeper.new) }
    ensures cause { result ≡ Err DoorFault.Failed → HasRisen (D.Link.fault_count door.old)
        (D.Link.fault_count door.new) }
{
    if workers == 1 {
        return served(alloc, &desk, keeper, door, clock, most);
    }
    let Desk { office, judge } = desk;
    served_by_memo::<Brand, K, D, C, J, T>(rt, alloc, office, judge, keeper, door, clock, most)
}
