//! Small facts that show what is told of a device beside the machine: each kind of cause, and its neighbour that is
//! none. Each is a theorem over the definitions that the clause of `device_causes` names, so that code which answers
//! otherwise is refused. Beside them stands the law that causes and findings are told in order, each once.
#![tactic(auto)]

ghost use Rattle.device_witness.specs.DeviceFacts.{DeviceIsTold};
ghost use Rattle.device_witness.specs.InOrder.{AreInOrder};

/// Each kind is told under strict lists and none under others but classes that are named elsewhere. A method is not
/// hidden by one that it overrides, nor a class of the platform that has a longer beginning of those brought along, and
/// an activity's own click is told of no one.
pub fn the_device_is_told()
    ensures { DeviceIsTold }
{}

/// The causes that the rows of a sound app, the app itself and what is told of a device give stand by kind, and within
/// a kind by class, by method, or by method and address; the findings by source, sink and place. Each is below all
/// behind it, so none is told twice.
pub fn are_in_order()
    ensures { AreInOrder }
{}
