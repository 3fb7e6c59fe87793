ghost use Rattle.std.specs.Prelude.{◌≡◌, length, slice_get};
ghost use Rattle.app_machine.specs.Summaries.{default_puts};
ghost use Rattle.app_parts.specs.Views.{puts_from, puts_into, shown_summary};

use crate::summary_view::SummaryView;
use app_machine::{FallbackWord, MethodRef};

/// How many puts a call of the method does.
#[tactic(auto, using(crate::proofs::Numbers::put_numbers))]
pub fn put_count(view: SummaryView, at: &MethodRef, is_static: bool) -> usize
    ensures { result ≡ length (shown_summary view.entry at.now is_static).puts }
{
    match view {
        SummaryView::Row(row) => row.puts.len(),
        SummaryView::Default(word) => default_put_count(word, at, is_static),
    }
}

/// Put k of a call of the method: the value of the first position becomes an element of the object
/// of the second.
#[tactic(auto, using(crate::proofs::Numbers::put_here, std::proofs::lemmas::Option::slice_get_past))]
pub fn put_at(
    view: SummaryView,
    at: &MethodRef,
    is_static: bool,
    k: usize,
) -> Option<(usize, usize)>
    ensures { result ≡ slice_get (shown_summary view.entry at.now is_static).puts k }
{
    match view {
        SummaryView::Row(row) => match row.puts.get(k) {
            Some(put) => Some((put.0 as usize, put.1 as usize)),
            None => None,
        },
        SummaryView::Default(word) => {
            if k < default_put_count(word, at, is_static) {
                Some((k + 1, 0))
            } else {
                None
            }
        }
    }
}

/// Whether a call of the method puts the value of the position into an object.
#[tactic(auto, using(crate::proofs::Numbers::puts_from_receiver, crate::proofs::Numbers::puts_from_argument))]
pub fn is_put_from(view: SummaryView, at: &MethodRef, is_static: bool, position: usize) -> bool
    ensures { result ≡ puts_from (shown_summary view.entry at.now is_static).puts position }
{
    match view {
        SummaryView::Row(row) => row
            .puts
            .as_slice()
            .iter()
            .any(|put| put.0 as usize == position),
        SummaryView::Default(word) => {
            position != 0 && position <= default_put_count(word, at, is_static)
        }
    }
}

/// Whether a call of the method puts a value into the object of the position.
#[tactic(auto, using(crate::proofs::Numbers::puts_into_receiver, crate::proofs::Numbers::puts_into_argument))]
pub fn is_put_into(view: SummaryView, at: &MethodRef, is_static: bool, position: usize) -> bool
    ensures { result ≡ puts_into (shown_summary view.entry at.now is_static).puts position }
{
    match view {
        SummaryView::Row(row) => row
            .puts
            .as_slice()
            .iter()
            .any(|put| put.1 as usize == position),
        SummaryView::Default(word) => position == 0 && default_put_count(word, at, is_static) != 0,
    }
}

/// How many puts a default does: one of each argument, where it mixes and there is a receiver.
#[tactic(auto, using(crate::proofs::Numbers::put_numbers))]
fn default_put_count(word: FallbackWord, at: &MethodRef, is_static: bool) -> usize
    ensures { result ≡ length (default_puts word is_static at.now.proto) }
{
    match word {
        FallbackWord::Mixed => { if is_static { 0 } else { at.proto.params.len() } }
        FallbackWord::Blank | FallbackWord::Joined => 0,
    }
}
