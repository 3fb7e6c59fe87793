//! Small facts that show what the clauses of a run's code say of instructions, of library calls, of raised values and of
//! events. Each is a theorem over the definitions that these clauses name, so that code which answers otherwise is refused.
#![tactic(auto)]

ghost use Rattle.runner_witness.specs.Acts.{ActsTell};
ghost use Rattle.runner_witness.specs.Begins.{BeginsTell};
ghost use Rattle.runner_witness.specs.Calls.{CallsTell};
ghost use Rattle.runner_witness.specs.Raises.{RaisesTell};

/// What instructions write, make and put, and what they are given by a script.
pub fn instructions_do_what_they_say()
    ensures { ActsTell }
{}

/// A raised value is drawn in each frame, and its handler has it in the exception's register; a body without code is
/// not entered.
pub fn raised_values_go_where_they_are_drawn()
    ensures { RaisesTell }
{}

/// What arrives, is joined, put, copied and handed by a library call, and which of its results take a byte.
pub fn library_calls_do_what_their_rows_say()
    ensures { CallsTell }
{}

/// What is drawn for the parameters of an event's body, which objects are made, and with what its frame begins.
pub fn events_begin_as_they_are_drawn()
    ensures { BeginsTell }
{}
