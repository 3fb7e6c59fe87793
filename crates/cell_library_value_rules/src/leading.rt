//! The labels that lead from a value: its own, and those that are reached from its object.
ghost use Rattle.std.specs.Prelude.{◌≡◌, ℕ, List, OnOk, fold};
ghost use Rattle.rule_ground.specs.declared.conclusion.Conclusion.{Conclusion as ConclusionOf};
ghost use Rattle.rule_ground.specs.declared.conclusion.Premises.{Premises as PremisesOf};
ghost use Rattle.library_ground.specs.CallRow.{shown_call};
ghost use Rattle.cell_library_value_rules.specs.CellValueGiven.{leading, reached_label};

use crate::values::{Value, with_object, with_value};
use cell_ground::Content;
use fact_rows::{Row, Site};
use library_ground::LibraryCall;
use rule_ground::{Facts, Join, Key, Premises, Sink, for_each_candidate};

/// What is concluded of a label that leads from a value, from these premises.
pub trait OfLabel {
    /// What the code needs of that on which it stands.
    ghost ready: { Self → Type 0 };

    ghost gives: { Self → PremisesOf → ℕ → List ConclusionOf };

    fn give<S: Sink>(&self, premises: Premises, label: u8, out: &mut S) -> Result<(), S::Refusal>
        requires { ready self.now }
        ensures { OnOk result (out.new ≡ fold S.then out.old (gives self.now premises label)) };
}

/// Each label that is reached from the object.
#[derive(Drop)]
struct Reached<'a, J> {
    call: LibraryCall<'a>,
    register: u32,
    site: Site,
    with: &'a J,
}

impl<'a, J: OfLabel> Join for Reached<'a, J> {
    ghost ready = { λ j. J.ready j.with.now };

    ghost gives = { λ j row. reached_label (J.gives j.with.now) (shown_call j.call) j.register j.site row };

    fn give<S: Sink>(&self, row: Row, out: &mut S) -> Result<(), S::Refusal> {
        match row {
            Row::Holds(_, label) => {
                let premises = with_object(&self.call, self.register, self.site, row);
                self.with.give(premises, label, out)
            }
            _ => Ok(()),
        }
    }
}

/// What is concluded of each label that leads from the value.
pub fn for_each_leading<F: Facts, J: OfLabel, S: Sink>(
    facts: &F,
    call: &LibraryCall<'_>,
    value: Value,
    with: &J,
    out: &mut S,
) -> Result<(), S::Refusal>
    requires { J.ready with.now }
    ensures { OnOk result (out.new ≡ fold S.then out.old (leading (F.hits facts.now) value.cell (shown_call call.now)
        value.register value.content (J.gives with.now))) }
{
    match value.content {
        Content::Object(site) => {
            let reached = Reached {
                call: *call,
                register: value.register,
                site,
                with,
            };
            for_each_candidate(facts, value.cell, &Key::HoldsOf(site), &reached, out)
        }
        Content::Label(label) => {
            if value.cell.is_some() {
                Ok(())
            } else {
                with.give(with_value(call, value.register, value.content), label, out)
            }
        }
    }
}
