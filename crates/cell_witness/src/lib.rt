//! Small facts about the second set of rules: where a register is read, what is missed where one of the
//! rules is left out, and by what the objects that a step makes are told apart. Each is a theorem over
//! the definitions alone, so that a slip in a definition shows.
#![tactic(auto)]

ghost use Rattle.cell_witness.specs.Made.{ObjectsAreMade};
ghost use Rattle.cell_witness.specs.Missing.{LeavingOutARuleMisses};
ghost use Rattle.cell_witness.specs.Readers.{RegistersAreRead};

/// A register is read by each step to which it keeps its value, behind a first reader too and along
/// handlers, but not past a write; what stands in EXC does not come along a handler.
pub fn registers_are_read_where_they_keep_their_value()
    ensures { RegistersAreRead }
{}

/// Without the rule of puts, without that of what is reached from an object, with only what its own cells
/// have of the latter, without that of joined results, and without that of copies there is a set of rows
/// that has the starts and is closed under all other rules, and has no row of an arrival in some run.
pub fn leaving_out_a_rule_misses_what_arrives()
    ensures { LeavingOutARuleMisses }
{}

/// A new object of a class of the app is told apart by the activation that makes it; an array, and
/// the result of a library call, by the step alone.
pub fn objects_are_told_apart_by_their_makers()
    ensures { ObjectsAreMade }
{}
