//! Stories tell what is derivable, and all that is.
ghost use Rattle.flow_story.specs.Stories.{IsTold, IsTellable};

use rule_sets::RuleSet;

/// The row with which a story ends is derivable.
pub fn what_a_story_tells_is_derivable<R: RuleSet>(rules: &R)
    ensures { IsTold (R.rule rules.now) (R.is_start rules.now) }
{
    let _rules = rules;
}

/// Every derivable row is one with which a story ends.
pub fn what_is_derivable_has_a_story<R: RuleSet>(rules: &R)
    requires { R.ready rules.now }
    ensures { IsTellable (R.rule rules.now) (R.is_start rules.now) }
{
    let _rules = rules;
}
