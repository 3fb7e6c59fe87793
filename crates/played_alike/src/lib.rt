//! Which states of the machine are alike for whoever plays it by a script: what is drawn from the one
//! is drawn from the other.
#![tactic(auto)]

ghost use Rattle.played_alike.specs.Laws.{AlikeStatesDrawAlike};

/// From alike states the same bytes make alike steps, to the end, and the same stands are listed.
pub fn alike_states_draw_alike()
    ensures { AlikeStatesDrawAlike }
{}
