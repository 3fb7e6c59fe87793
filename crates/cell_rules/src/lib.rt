//! The second set of rules, by which labels are in the cells of objects and rows of registers stand
//! only where a register is read. The definitions stand in `specs/`, a file a group of rules, with the
//! numbers of the first set and in the order of `docs/RULES.md`. And what a search owes that lists
//! where a register is read, and that no rule gives a row from nothing.
#![tactic(auto)]

ghost use Rattle.cell_rules.specs.Premised.{EveryCellRuleHasPremises};
ghost use Rattle.cell_rules.specs.Searching.{ReadersAreMet};

/// Where some addresses are all to which a register keeps its value from one, as a search with marks
/// finds them, the register is read from there at just those among them whose step reads it.
pub fn readers_are_met()
    ensures { ReadersAreMet }
{}

/// No rule of the set gives a row from nothing.
pub fn every_cell_rule_has_premises()
    ensures { EveryCellRuleHasPremises }
{}
