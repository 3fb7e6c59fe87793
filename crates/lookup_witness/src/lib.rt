//! Small facts that show what look-ups find: in a small app, in small lists, and in the parts of a call.
//! Each is a theorem over the definitions that the clauses of the look-ups name, so that code which
//! answers otherwise is refused.
#![tactic(auto)]

ghost use Rattle.lookup_witness.specs.AppFacts.{AppIsLookedUp};
ghost use Rattle.lookup_witness.specs.IndexFacts.{ListsAreLookedUp, StaticsAreLookedUp};
ghost use Rattle.lookup_witness.specs.PartFacts.{PartsAreTold};

/// Bodies are found past classes without one, by the whole descriptor, and events only where the machine
/// has them; interfaces of interfaces stand above a class, and initialisers of superclasses run.
pub fn the_app_is_looked_up()
    ensures { AppIsLookedUp }
{}

/// A row goes before a default, serves calls of its own static word alone, and serves an array by `Object`.
pub fn the_lists_are_looked_up()
    ensures { ListsAreLookedUp }
{}

/// The readers of a static are the steps that get it, under their own method, and its label is that of
/// the first row of its class, name and type.
pub fn the_readers_of_a_static_are_looked_up()
    ensures { StaticsAreLookedUp }
{}

/// What the parts of a call, of an event and of a default say.
pub fn the_parts_of_calls_tell()
    ensures { PartsAreTold }
{}
