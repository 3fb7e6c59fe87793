//! Pairs of a row of the lists, of which the first is a position.
ghost use Rattle.std.specs.Prelude.{◌≡◌, ◌==◌, ℕ, List, [], OnOk, fold, if◌then◌else◌};
ghost use Rattle.rule_ground.specs.declared.conclusion.Conclusion.{Conclusion as ConclusionOf};
ghost use Rattle.library_ground.specs.CallRow.{shown_call};
ghost use Rattle.library_heap_rules.specs.HeapGiven.{pairs_from};

use app_parts::{SummaryView, is_put_from, is_static_call};
use library_ground::{LibraryCall, Pins};
use rule_ground::Sink;

/// A position of a call, in its register, with the rows that can be looked up and those that are known.
#[derive(Drop)]
pub struct Position<'a, F> {
    pub facts: &'a F,
    pub call: LibraryCall<'a>,
    pub pins: Pins,
    pub number: usize,
    pub register: u32,
}

/// What is concluded from the second of a pair.
pub trait OfSecond {
    ghost gives: { Self → ℕ → List ConclusionOf };

    fn give<S: Sink>(&self, second: u32, out: &mut S) -> Result<(), S::Refusal>
        ensures { OnOk result (out.new ≡ fold S.then out.old (gives self.now second)) };
}

fn of_pair<J: OfSecond, S: Sink>(
    pair: (u32, u32),
    position: usize,
    with: &J,
    out: &mut S,
) -> Result<(), S::Refusal>
    ensures { OnOk result (out.new ≡ fold S.then out.old (if pair.0 == position then J.gives with.now pair.1 else [])) }
{
    if pair.0 as usize == position {
        with.give(pair.1, out)
    } else {
        Ok(())
    }
}

/// What is concluded of each pair of which the position is the first.
pub fn for_each_from<J: OfSecond, S: Sink>(
    pairs: &[(u32, u32)],
    position: usize,
    with: &J,
    out: &mut S,
) -> Result<(), S::Refusal>
    ensures { OnOk result (out.new ≡ fold S.then out.old (pairs_from position (J.gives with.now) pairs.now)) }
{
    for pair in pairs {
        of_pair(*pair, position, with, out)?;
    }
    Ok(())
}

/// The same of each put of a call. A default puts an argument once, and into the receiver.
#[tactic(auto, using(library_heap_rules::proofs::Defaults::default_put, library_heap_rules::proofs::Defaults::no_put))]
pub fn for_each_put<J: OfSecond, S: Sink>(
    call: &LibraryCall<'_>,
    position: usize,
    with: &J,
    out: &mut S,
) -> Result<(), S::Refusal>
    ensures { OnOk result
        (out.new ≡ fold S.then out.old (pairs_from position (J.gives with.now) (shown_call call.now).row.puts)) }
{
    match call.view {
        SummaryView::Row(row) => for_each_from(row.puts.as_slice(), position, with, out),
        SummaryView::Default(word) => {
            let view = SummaryView::Default(word);
            if is_put_from(view, call.at, is_static_call(call.kind), position) {
                with.give(0, out)
            } else {
                Ok(())
            }
        }
    }
}
