//! Small facts that show that the definitions of code mean what they should: what units are decoded
//! to, or their first fault; what is too much for a method; and what a line does and which handlers
//! cover it. Each is a theorem over the definitions that the clauses of `dex_code` name, so that code
//! which answers otherwise is refused.
#![tactic(auto)]

ghost use Rattle.code_witness.specs.Codes.{CodesAreTold};
ghost use Rattle.code_witness.specs.Crowds.{CrowdsAreTold};
ghost use Rattle.code_witness.specs.Lines.{LinesAreTold};

/// What the units of some methods are decoded to, and the first fault of others.
pub fn the_codes_are_told()
    ensures { CodesAreTold }
{}

/// Two methods that are code and list more than a method may.
pub fn the_crowds_are_told()
    ensures { CrowdsAreTold }
{}

/// What a line writes, and where an exception goes from it.
pub fn the_lines_are_told()
    ensures { LinesAreTold }
{}
