//! Small facts about the rules of events of the second set: which lists of conclusions are not what they give with
//! a row, whatever the app. Each is a theorem over the definitions alone, so that code that gave such a list would
//! not be proved.
#![tactic(auto)]

ghost use Rattle.cell_event_witness.specs.Refused.{WrongListsOfEventsAreRefused};

/// Not what the rules of events give: a list that leaves out what an event gives its receiver, a parameter, what a
/// source labels or the object whose element it labels, a click, a callback on a handed object, or a handed object
/// that comes back, from either side; one in which something comes to a component that is not there; and one with a
/// label that no source has, under another key than that of elements, or with a parameter of another event.
pub fn wrong_lists_of_events_are_refused()
    ensures { WrongListsOfEventsAreRefused }
{}
