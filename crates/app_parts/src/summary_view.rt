ghost use Rattle.std.specs.Prelude.{◌≡◌, Bool};
ghost use Rattle.std.specs.Option.{option_copied};
ghost use Rattle.app_machine.specs.declared.call.MethodRef.{MethodRef};
ghost use Rattle.app_machine.specs.State.{holds};
ghost use Rattle.app_machine.specs.Summaries.{default_gives};
ghost use Rattle.app_parts.specs.Views.{call_result, joined_from, shown_summary};

use crate::places::is_position;
use app_machine::{FallbackWord, Gives, MethodRef, Summary};
use vet_base::Seq;

/// What the lists say of a library call.
#[derive(Clone, Copy)]
pub enum SummaryView<'a> {
    /// A row of its own.
    Row(&'a Summary),
    /// The default of its class.
    Default(FallbackWord),
}

/// What the result of a library call is. From which positions a joined one comes, `is_joined_from` tells.
#[derive(Clone, Copy)]
pub enum CallResult {
    /// A value without place and labels.
    Blank,
    /// The value of a position.
    Same(u32),
    /// An element of the object of a position.
    Taken(u32),
    /// A new value with the labels that some positions reach.
    Joined,
    /// The shared object of that number.
    Shared(u32),
    /// An object that the library was handed, or a component that is there.
    Handed,
}

/// What the result is, by the row or the default.
pub fn result_of(view: SummaryView) -> CallResult
    ensures { (at : MethodRef) (is_static : Bool) → result ≡ call_result (shown_summary view.entry at is_static).gives }
{
    match view {
        SummaryView::Row(row) => match &row.gives {
            Gives::Blank => CallResult::Blank,
            Gives::Same(position) => CallResult::Same(*position),
            Gives::Taken(position) => CallResult::Taken(*position),
            Gives::Joined(_) => CallResult::Joined,
            Gives::Shared(number) => CallResult::Shared(*number),
            Gives::Handed => CallResult::Handed,
        },
        SummaryView::Default(FallbackWord::Blank) => CallResult::Blank,
        SummaryView::Default(FallbackWord::Joined | FallbackWord::Mixed) => CallResult::Joined,
    }
}

/// Whether the result of a call of the method is joined from the position. By a default it is joined from all.
pub fn is_joined_from(view: SummaryView, at: &MethodRef, is_static: bool, position: usize) -> bool
    ensures { result ≡ joined_from (shown_summary view.entry at.now is_static).gives position }
{
    match view {
        SummaryView::Row(row) => joins(&row.gives, position),
        SummaryView::Default(word) => default_joins(word, at, is_static, position),
    }
}

fn joins(gives: &Gives, position: usize) -> bool
    ensures { result ≡ joined_from gives.now position }
{
    match gives {
        Gives::Joined(from) => is_among(from.as_slice(), position),
        _ => false,
    }
}

fn is_among(positions: &[u32], position: usize) -> bool
    ensures { result ≡ holds positions.now position }
{
    positions.iter().any(|one| position == *one as usize)
}

fn default_joins(word: FallbackWord, at: &MethodRef, is_static: bool, position: usize) -> bool
    ensures { result ≡ joined_from (default_gives word is_static at.now.proto) position }
{
    match word {
        FallbackWord::Blank => false,
        FallbackWord::Joined | FallbackWord::Mixed => is_position(is_static, &at.proto, position),
    }
}

/// The positions whose values become elements of shared objects, and the numbers of these.
pub fn stores<'a>(view: SummaryView<'a>) -> &'a [(u32, u32)]
    ensures { (at : MethodRef) (is_static : Bool) → result.now ≡ (shown_summary view.entry at is_static).stores }
{
    match view {
        SummaryView::Row(row) => row.stores.as_slice(),
        SummaryView::Default(_) => &[],
    }
}

/// The pairs of positions whose objects' elements are copied, from the first to the second.
pub fn copies<'a>(view: SummaryView<'a>) -> &'a [(u32, u32)]
    ensures { (at : MethodRef) (is_static : Bool) → result.now ≡ (shown_summary view.entry at is_static).copies }
{
    match view {
        SummaryView::Row(row) => row.copies.as_slice(),
        SummaryView::Default(_) => &[],
    }
}

/// The category with which the result is labelled.
pub fn source(view: SummaryView) -> Option<u8>
    ensures { (at : MethodRef) (is_static : Bool) → result ≡ (shown_summary view.entry at is_static).source }
{
    match view {
        SummaryView::Row(row) => row.source,
        SummaryView::Default(_) => None,
    }
}

/// The category of the sink, and the positions at which values come to it.
pub fn sink<'a>(view: SummaryView<'a>) -> Option<&'a (u8, Seq<u32>)>
    ensures { (at : MethodRef) (is_static : Bool) → option_copied result
        ≡ (shown_summary view.entry at is_static).sink }
{
    match view {
        SummaryView::Row(row) => row.sink.as_ref(),
        SummaryView::Default(_) => None,
    }
}

/// Whether what the method does cannot be told from the call.
pub fn is_reflective(view: SummaryView) -> bool
    ensures { (at : MethodRef) (is_static : Bool) → result ≡ (shown_summary view.entry at is_static).reflective }
{
    match view {
        SummaryView::Row(row) => row.reflective,
        SummaryView::Default(_) => false,
    }
}
