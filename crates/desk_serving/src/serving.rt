//! One connection.
ghost use Rattle.std.specs.Prelude.{◌≡◌, ◌≤◌, Result};
ghost use Rattle.http.specs.StatusCode.{IsStatusCode};
ghost use Rattle.vet_base.specs.Outside.{HasRisen};
ghost use Rattle.desk_serving.specs.Obeying.{TellsDocket};
ghost use Rattle.desk_serving.specs.Responding.{answer_in, IsCoded, setting_of};
ghost use Rattle.desk_serving.specs.Serving.{outside, Serves};
ghost use Rattle.desk_serving.specs.Sending.{IsSent, IsSentOf, ServesRequest, unasked};

use crate::judge::{Desk, Judge};
use crate::responding::{Due, responded};
use case_keeper::Keeper;
use desk_http::{Answer, Asked, HttpFault, SendFault, read_request, write_reply};
use desk_links::{Clock, Link};
use std::alloc::Global;

/// How a connection went.
#[derive(Clone, Copy, Debug, PartialEq, Eq)]
pub enum Served {
    /// The whole reply with this status was written.
    Replied(u16),
    /// It ended before a whole request came, and nothing was written.
    Ended,
    /// The link failed before a whole request came, and nothing was written.
    ReadFault,
    /// The link failed while the reply was written, of which it took a front.
    WriteFault,
    /// Memory ran out, and nothing was written.
    Memory,
}

/// Writes an answer.
fn written<L: Link>(alloc: Global, link: &mut L, answer: &Answer) -> Served
    requires { IsStatusCode answer.now.status }
    ensures sent { IsSent (L.told link.old) (L.told link.new) answer.now result }
    ensures cause { result ≡ Served.WriteFault → HasRisen (L.fault_count link.old) (L.fault_count link.new) }
    ensures never_falls { L.fault_count link.old ≤ L.fault_count link.new }
{
    match write_reply(alloc, link, answer) {
        Ok(()) => Served::Replied(answer.status),
        Err(SendFault::Failed) => Served::WriteFault,
        Err(SendFault::Memory) => Served::Memory,
    }
}

/// Writes what is due, if anything.
fn sent<L: Link>(alloc: Global, link: &mut L, due: &Due) -> Served
    requires { IsCoded due.now }
    ensures sent { IsSentOf (L.told link.old) (L.told link.new) (answer_in due.now) result }
    ensures cause { result ≡ Served.WriteFault → HasRisen (L.fault_count link.old) (L.fault_count link.new) }
    ensures never_falls { L.fault_count link.old ≤ L.fault_count link.new }
{
    match due {
        Due::Command(answer) => written(alloc, link, answer),
        Due::Other(answer) => written(alloc, link, answer),
        Due::StoreFailed(answer) => written(alloc, link, answer),
        Due::NoMemory(answer) => written(alloc, link, answer),
        Due::Nothing => Served::Memory,
    }
}

/// Serves what was asked: carries a command out, and writes what is due.
fn answered<K: Keeper, L: Link, J: Judge>(
    alloc: Global,
    desk: &Desk<J>,
    keeper: &mut K,
    link: &mut L,
    day: u32,
    request: &Result<Asked, HttpFault>,
) -> Served
    requires ready { J.ready desk.now.judge }
    requires docket { TellsDocket (K.told keeper.old) }
    ensures served { ServesRequest (J.finds desk.now.judge) (setting_of desk.now.office (J.edition desk.now.judge) day)
        (outside (K.told keeper.old) (K.fault_count keeper.old) (L.told link.old) (L.fault_count link.old))
        (outside (K.told keeper.new) (K.fault_count keeper.new) (L.told link.new) (L.fault_count link.new)) request.now
        result }
    ensures docket { TellsDocket (K.told keeper.new) }
{
    let due = responded(alloc, desk, keeper, day, request);
    sent(alloc, link, &due)
}

/// How a connection went where nothing was asked and nothing is to be answered: it ended before anything came, or a
/// read failed. None where there is a request to answer, or a fault to reply to.
pub fn unasked(request: &Result<Asked, HttpFault>) -> Option<Served>
    ensures { result ≡ unasked request.now }
{
    match request {
        Err(HttpFault::Ended) => Some(Served::Ended),
        Err(HttpFault::ReadFault) => Some(Served::ReadFault),
        _ => None,
    }
}

/// Serves one connection over a link: reads one request, carries its command out once and writes the reply. The day is
/// asked for only where there is a request to answer.
///
/// Where keeper and link tell what they hold, it is one connection of the desk's machine: the answer is that of the
/// bytes that came, the reply that of the command over the cases, and nothing else is written or changed. Where the
/// keeper alone tells, the cases are changed as by one command of some request, to which the status is due that is
/// given; where the link alone tells, what is written may be answered to the bytes that came. 503 is replied only where
/// the keeper's count of faults rose in this call, and 507 only for want of memory; both leave the cases as they were.
pub fn serve_one<K: Keeper, L: Link, C: Clock, J: Judge>(
    alloc: Global,
    desk: &Desk<J>,
    keeper: &mut K,
    link: &mut L,
    clock: &mut C,
) -> Served
    // The judge can be asked.
    requires ready { J.ready desk.now.judge }

    // The keeper's cases, where it tells them, are those of a desk.
    requires docket { TellsDocket (K.told keeper.old) }
    ensures serves { Serves (J.finds desk.now.judge) desk.now.office (J.edition desk.now.judge) (C.told clock.old)
        (outside (K.told keeper.old) (K.fault_count keeper.old) (L.told link.old) (L.fault_count link.old))
        (outside (K.told keeper.new) (K.fault_count keeper.new) (L.told link.new) (L.fault_count link.new)) result }
    ensures docket { TellsDocket (K.told keeper.new) }

    // Whatever they tell: why the store is called failed, and a connection is cut off.
    ensures store { result ≡ Served.Replied 503 → HasRisen (K.fault_count keeper.old) (K.fault_count keeper.new) }
    ensures unread { result ≡ Served.ReadFault → HasRisen (L.fault_count link.old) (L.fault_count link.new) }
    ensures cut { result ≡ Served.WriteFault → HasRisen (L.fault_count link.old) (L.fault_count link.new) }
    ensures store_never_falls { K.fault_count keeper.old ≤ K.fault_count keeper.new }
    ensures link_never_falls { L.fault_count link.old ≤ L.fault_count link.new }
    ensures clock { C.told clock.new ≡ C.told clock.old }
{
    let request = read_request(alloc, link);
    match unasked(&request) {
        Some(said) => said,
        None => {
            let day = clock.today();
            answered(alloc, desk, keeper, link, day, &request)
        }
    }
}
