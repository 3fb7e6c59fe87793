//! Small facts that show that the rules mean what they should: each of them gives its row, and a whole
//! good table. Each is a theorem over the definitions alone, so that a slip in a definition shows.
#![tactic(auto)]

ghost use Rattle.rule_witness.specs.CallFacts.{CallRulesHold};
ghost use Rattle.rule_witness.specs.EventFacts.{EventRulesHold};
ghost use Rattle.rule_witness.specs.HandedFacts.{HandedRulesHold, HandedRulesWithhold};
ghost use Rattle.rule_witness.specs.LibraryFacts.{LibraryRulesHold};
ghost use Rattle.fact_rows.specs.declared.context.Ctx.{Ctx};
ghost use Rattle.rule_witness.specs.RowFacts.{NodesTell, RowsTell};
ghost use Rattle.rule_witness.specs.Smallest.{SmallestTableIsGood, SmallestTableIsDerivable};
ghost use Rattle.rule_witness.specs.StepFacts.{StepRulesHold, EffectRulesHold};
ghost use Rattle.rule_witness.specs.Withheld.{CallRulesWithhold, EventRulesWithhold, SitesTell};

/// The eleven rows of the smallest app are a good table.
pub fn the_smallest_table_is_good()
    ensures { SmallestTableIsGood }
{}

/// Rules 1 to 13, of steps within a method, each give their rows.
pub fn the_rules_of_steps_hold()
    ensures { StepRulesHold }
{}

/// Rules 14 to 21, of effects, each give their rows.
pub fn the_rules_of_effects_hold()
    ensures { EffectRulesHold }
{}

/// Rules 22 to 29, of calls, each give their rows.
pub fn the_rules_of_calls_hold()
    ensures { CallRulesHold }
{}

/// Rules 30 to 39, of library calls, each give their rows.
pub fn the_rules_of_the_library_hold()
    ensures { LibraryRulesHold }
{}

/// Rules 40 to 47, of events, each give their rows.
pub fn the_rules_of_events_hold()
    ensures { EventRulesHold }
{}

/// Rule 48, of handed results, gives its rows, of what was handed and of components that are there.
pub fn the_rules_of_handed_results_hold()
    ensures { HandedRulesHold }
{}

/// It gives back no component that is not there, and nothing of another class.
pub fn the_rules_of_handed_results_withhold()
    ensures { HandedRulesWithhold }
{}

/// The rules of calls pass no initialiser the arguments of the call before which it runs, and no body
/// the sites of the receiver on which it hangs.
pub fn the_rules_of_calls_withhold()
    ensures { CallRulesWithhold }
{}

/// By the rules of events no callback comes to a component that is not there, and a parameter comes
/// labelled by a source of its own position alone.
pub fn the_rules_of_events_withhold()
    ensures { EventRulesWithhold }
{}

/// A handed object has the class of its callback's parameter, and a number that a call returns is no object.
pub fn the_classes_of_sites_tell()
    ensures { (c : Ctx) → SitesTell c }
{}

/// The parts of a row are its own fields in their order, and the kinds are numbered from 1.
pub fn the_parts_of_rows_tell()
    ensures { RowsTell }
{}

/// What a call enters begins at its start, in the context of the last two calls.
pub fn the_nodes_of_calls_tell()
    ensures { NodesTell }
{}

/// Each of the eleven rows is derivable.
pub fn the_smallest_table_is_derivable()
    ensures { SmallestTableIsDerivable }
{}
