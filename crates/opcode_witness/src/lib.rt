//! That the one table of opcodes is the documentation's, which is said here once more, by ranges.
#![tactic(auto)]

ghost use Rattle.opcode_witness.specs.Documented.{TableIsDocumented};

/// The layout, the wide operands and the group of each of the 256 opcodes are those that the
/// documentation of Android gives it.
pub fn opcodes_are_documented()
    ensures { TableIsDocumented }
{}
