//! Connections, one after the other.
ghost use Rattle.std.specs.Prelude.{◌≡◌, Err};
ghost use Rattle.vet_base.specs.Outside.{HasRisen};
ghost use Rattle.desk_serving.specs.Obeying.{TellsDocket};
ghost use Rattle.desk_serving.specs.Serving.{outside};
ghost use Rattle.desk_serving.specs.Run.{Runs, IsMachineRun, HoldsTalks, CountsAll};

use crate::judge::{Desk, Judge};
use crate::serving::serve_one;
use case_keeper::Keeper;
use desk_links::{Clock, Door, DoorFault};
use std::alloc::Global;

/// Connections are taken and served. It is proved of the loop which runs there are; `serve_door` proves from it alone
/// that such a run is one of the desk's machine.
fn served_door<K: Keeper, D: Door, C: Clock, J: Judge>(
    alloc: Global,
    desk: &Desk<J>,
    keeper: &mut K,
    door: &mut D,
    clock: &mut C,
    most: u32,
) -> Result<u32, DoorFault>
    // The judge can be asked.
    requires ready { J.ready desk.now.judge }

    // The keeper's cases, where it tells them, are those of a desk.
    requires docket { TellsDocket (K.told keeper.old) }
    ensures runs { Runs (J.finds desk.now.judge) desk.now.office (J.edition desk.now.judge) (C.told clock.old) most
        (outside (K.told keeper.old) (K.fault_count keeper.old) (D.Link.told door.old) (D.Link.fault_count door.old))
        (outside (K.told keeper.new) (K.fault_count keeper.new) (D.Link.told door.new) (D.Link.fault_count door.new))
        result }
    ensures docket { TellsDocket (K.told keeper.new) }
    ensures cause { result ≡ Err DoorFault.Failed → HasRisen (D.Link.fault_count door.old)
        (D.Link.fault_count door.new) }
{
    let mut taken = 0;
    while taken < most {
        match door.next(alloc, desk.office.port) {
            Ok(true) => {}
            Ok(false) => return Ok(taken),
            Err(fault) => return Err(fault),
        }
        serve_one(alloc, desk, keeper, door, clock);
        taken += 1;
    }
    Ok(taken)
}

/// Takes connections from a door until `most` were taken or no more come, serves each, and gives how many they were. A
/// connection or a keeper that fails ends nothing but that connection. After an `Err` those that were taken before are
/// served: `Failed` comes only where the door could not open the next one and its count rose, and `Memory` where memory
/// ran out as it opened.
pub fn serve_door<K: Keeper, D: Door, C: Clock, J: Judge>(
    alloc: Global,
    desk: &Desk<J>,
    keeper: &mut K,
    door: &mut D,
    clock: &mut C,
    most: u32,
) -> Result<u32, DoorFault>
    // The judge can be asked.
    requires ready { J.ready desk.now.judge }

    // The keeper's cases, where it tells them, are those of a desk.
    requires docket { TellsDocket (K.told keeper.old) }
    ensures runs { Runs (J.finds desk.now.judge) desk.now.office (J.edition desk.now.judge) (C.told clock.old) most
        (outside (K.told keeper.old) (K.fault_count keeper.old) (D.Link.told door.old) (D.Link.fault_count door.old))
        (outside (K.told keeper.new) (K.fault_count keeper.new) (D.Link.told door.new) (D.Link.fault_count door.new))
        result }

    // Where the keeper tells its cases it is a run of the desk's machine, whatever the door tells.
    ensures machine { IsMachineRun
        (outside (K.told keeper.old) (K.fault_count keeper.old) (D.Link.told door.old) (D.Link.fault_count door.old))
        (outside (K.told keeper.new) (K.fault_count keeper.new) (D.Link.told door.new) (D.Link.fault_count door.new))
        result }

    // Where the door tells, conversations are held, as many as there are, whatever the keeper tells.
    ensures talks { HoldsTalks desk.now.office
        (outside (K.told keeper.old) (K.fault_count keeper.old) (D.Link.told door.old) (D.Link.fault_count door.old))
        (outside (K.told keeper.new) (K.fault_count keeper.new) (D.Link.told door.new) (D.Link.fault_count door.new))
        result }
    ensures count { CountsAll most
        (outside (K.told keeper.old) (K.fault_count keeper.old) (D.Link.told door.old) (D.Link.fault_count door.old))
        result }
    ensures docket { TellsDocket (K.told keeper.new) }
    ensures cause { result ≡ Err DoorFault.Failed → HasRisen (D.Link.fault_count door.old)
        (D.Link.fault_count door.new) }
{
    served_door(alloc, desk, keeper, door, clock, most)
}
