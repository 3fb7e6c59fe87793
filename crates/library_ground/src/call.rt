//! The library call at a node.
ghost use Rattle.std.specs.Prelude.{◌≡◌, IfSome, option_map, slice_get};
ghost use Rattle.std.specs.Option.{option_copied};
ghost use Rattle.app_machine.specs.Names.{is_reference};
ghost use Rattle.app_machine.specs.Sound.{SoundApp};
ghost use Rattle.app_machine.specs.SoundLists.{SoundLists};
ghost use Rattle.app_machine.specs.State.{holds};
ghost use Rattle.app_parts.specs.Views.{call_result, joined_from};
ghost use Rattle.library_ground.specs.CallRow.{call_row, has_result, row_by, shown_call, sink_among, sink_of, IsWithin};

use app_machine::{Act, App, CallKind, Lists, MethodRef, Step, SummaryId};
use app_model::{step_at, summary_of};
use app_parts::{
    CallResult, SummaryView, copies, is_joined_from, is_reference, is_static_call, is_void,
    place_at, result_of, sink, source, stores,
};
use fact_rows::{Node, Row};
use vet_base::Seq;

/// A library call at a node, with what the lists say of it.
#[derive(Clone, Copy)]
pub struct LibraryCall<'a> {
    pub node: Node,
    pub uses: SummaryId,
    pub kind: CallKind,
    pub at: &'a MethodRef,
    pub args: &'a [u32],
    /// To where control goes on from it.
    pub next: &'a [u32],
    pub view: SummaryView<'a>,
}

/// The call at the node by the row or default. None exactly where the step there is no call, or the
/// lists have no such row or default.
#[tactic(auto, using(crate::proofs::Within::all_within))]
pub fn call_row<'a>(
    app: &'a App,
    lists: &'a Lists,
    node: Node,
    uses: SummaryId,
) -> Option<LibraryCall<'a>>
    requires sound { SoundApp app.now }
    requires lists { SoundLists lists.now }
    ensures same { option_map (λ c. shown_call c) result ≡ call_row app.now lists.now node uses }
    ensures within { IfSome result (λ c. IsWithin (shown_call c)) }
{
    let call = call_at(app, lists, node, uses);
    call
}

fn call_at<'a>(
    app: &'a App,
    lists: &'a Lists,
    node: Node,
    uses: SummaryId,
) -> Option<LibraryCall<'a>>
    requires { SoundApp app.now }
    ensures { option_map (λ c. shown_call c) result ≡ call_row app.now lists.now node uses }
{
    match step_at(app, node.by.method, node.pc) {
        None => None,
        Some(step) => call_by(lists, step, node, uses),
    }
}

fn call_by<'a>(
    lists: &'a Lists,
    step: &'a Step,
    node: Node,
    uses: SummaryId,
) -> Option<LibraryCall<'a>>
    ensures { option_map (λ c. shown_call c) result ≡ row_by lists.now node uses step.now.next step.now.act }
{
    match &step.act {
        Act::Call(kind, at, args) => match summary_of(lists, uses) {
            None => None,
            Some(view) => Some(LibraryCall {
                node,
                uses,
                kind: *kind,
                at,
                args: args.as_slice(),
                next: step.next.as_slice(),
                view,
            }),
        },
        _ => None,
    }
}

fn is_among(positions: &[u32], position: usize) -> bool
    ensures { result ≡ holds positions.now position }
{
    positions.iter().any(|one| position == *one as usize)
}

/// The category of the sink, where it has the position.
fn sink_at(sink: Option<&(u8, Seq<u32>)>, position: usize) -> Option<u8>
    ensures { result ≡ sink_among (option_copied sink.entry) position }
{
    match sink {
        None => None,
        Some(sink) => {
            if is_among(sink.1.as_slice(), position) {
                Some(sink.0)
            } else {
                None
            }
        }
    }
}

impl<'a> LibraryCall<'a> {
    /// The row by which the call uses the lists.
    pub fn premise(&self) -> Row
        ensures { result ≡ Row.Uses self.now.node self.now.uses }
    {
        Row::Uses(self.node, self.uses)
    }

    /// The first register of the position.
    pub fn place(&self, position: usize) -> Option<u32>
        ensures { result ≡ slice_get (shown_call self.now).places position }
    {
        place_at(self.kind, self.at, self.args, position)
    }

    /// Whether the method has a result.
    pub fn has_result(&self) -> bool
        ensures { result ≡ has_result (shown_call self.now) }
    {
        !is_void(&self.at.proto.ret)
    }

    /// Whether the result is of a reference type.
    pub fn has_reference(&self) -> bool
        ensures { result ≡ is_reference (shown_call self.now).ret }
    {
        is_reference(&self.at.proto.ret)
    }

    /// What the result is.
    pub fn gives(&self) -> CallResult
        ensures { result ≡ call_result (shown_call self.now).row.gives }
    {
        result_of(self.view)
    }

    /// Whether the result is joined from the position.
    pub fn is_joined_from(&self, position: usize) -> bool
        ensures { result ≡ joined_from (shown_call self.now).row.gives position }
    {
        is_joined_from(self.view, self.at, is_static_call(self.kind), position)
    }

    /// The category with which the result is labelled.
    pub fn source(&self) -> Option<u8>
        ensures { result ≡ (shown_call self.now).row.source }
    {
        source(self.view)
    }

    /// The category of the sink, where the position is one of its.
    pub fn sink_of(&self, position: usize) -> Option<u8>
        ensures { result ≡ sink_of (shown_call self.now) position }
    {
        sink_at(sink(self.view), position)
    }

    /// The positions whose values become elements of shared objects, and the numbers of these.
    pub fn stores(&self) -> &'a [(u32, u32)]
        ensures { result.now ≡ (shown_call self.now).row.stores }
    {
        stores(self.view)
    }

    /// The pairs of positions whose objects' elements are copied, from the first to the second.
    pub fn copies(&self) -> &'a [(u32, u32)]
        ensures { result.now ≡ (shown_call self.now).row.copies }
    {
        copies(self.view)
    }
}
