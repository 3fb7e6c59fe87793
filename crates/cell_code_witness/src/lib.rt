//! Small facts about the code of the second set of rules: which lists of conclusions are not what its
//! rules give with a row, whatever the app. Each is a theorem over the definitions alone, so that code
//! that gave such a list would not be proved.
#![tactic(auto)]

ghost use Rattle.cell_code_witness.specs.Refused.{WrongListsAreRefused};
ghost use Rattle.cell_code_witness.specs.RefusedCalls.{WrongListsOfCallsAreRefused};

/// Not what the rules of steps give: a list without the label of a put, from either side; one without
/// what a cell's label lets an object reach, or without what holds that object; a list in which a put
/// or a get takes another key than its own; one in which a new object is told apart otherwise than by
/// what makes it; and one of a move with one reader, where there are two.
pub fn wrong_lists_are_refused()
    ensures { WrongListsAreRefused }
{}

/// Not what the rules of library calls give with any of the rows from which it follows: a list without what
/// comes to a sink from a position, without the label that a joined result has of a position or of a source,
/// where it is read or as its element, or without the label that a put, a store or a copy makes one of an
/// element; and one in which a joined result holds its label in another object, or a copy goes to another.
pub fn wrong_lists_of_calls_are_refused()
    ensures { WrongListsOfCallsAreRefused }
{}
