//! Rules 23 and 27: what a call comes to by an object that its receiver may be.
ghost use Rattle.std.specs.Prelude.{◌≡◌, ◌<◌, OnOk, fold, length, slice_get};
ghost use Rattle.app_machine.specs.Sound.{SoundApp};
ghost use Rattle.app_machine.specs.SoundLists.{SoundLists};
ghost use Rattle.app_model.specs.Targets.{shown_target};
ghost use Rattle.std.specs.Option.{option_copied};
ghost use Rattle.call_targets.specs.EnterGiven.{class_to, class_on, received as receives, is_register};

use crate::enter::{Call, argument_register, enter, look_up, pass_to};
use crate::numbers;
use app_index::LibraryIndex;
use app_machine::{Act, App};
use app_model::{Target, target};
use app_parts::is_by_receiver;
use fact_rows::{Node, Row, Site};
use rule_ground::{Content, Premises, Sink, callee};
use site_classes::site_class;
use vet_base::Name;

/// Whether the register is the argument of this index.
pub fn is_argument(args: &[u32], index: usize, register: u32) -> bool
    ensures { result ≡ is_register (slice_get args.now index) register }
{
    match args.get(index) {
        None => false,
        Some(own) => *own == register,
    }
}

/// A register that may hold an object of the site at the node.
#[derive(Clone, Copy)]
pub struct Pointer {
    pub node: Node,
    pub register: u32,
    pub site: Site,
}

/// The call comes to this by the class of the object.
fn come_by_class<S: Sink>(
    call: &Call<'_>,
    receiver: Pointer,
    to: Target,
    out: &mut S,
) -> Result<(), S::Refusal>
    requires sound { SoundApp call.now.app.now }
    requires lists { SoundLists call.now.lists.now }
    ensures { OnOk result (out.new ≡ fold S.then out.old (class_to call.now.app.now call.now.lists.now call.now.node
        receiver.register receiver.site call.now.kind call.now.at.now (shown_target to.entry))) }
{
    let premises = Premises::of_one(Row::Points(call.node, receiver.register, receiver.site));
    match to {
        Target::Body(body) => {
            enter(
                call.app,
                numbers::ENTER_BY_CLASS,
                premises,
                call.node,
                body,
                out,
            )?;
            pass_to(
                numbers::ENTER_BY_CLASS,
                premises,
                Content::Object(receiver.site),
                callee(call.node, body),
                argument_register(call.app, body, 0),
                out,
            )
        }
        Target::Library(above) => look_up(call, premises, above, out),
        Target::Nothing => Ok(()),
    }
}

/// What the call comes to by the class, where the site has one.
fn by_class<S: Sink>(
    call: &Call<'_>,
    receiver: Pointer,
    class: Option<&Name>,
    out: &mut S,
) -> Result<(), S::Refusal>
    requires sound { SoundApp call.now.app.now }
    requires lists { SoundLists call.now.lists.now }
    requires caller { call.now.node.by.method < length call.now.app.now.methods }
    ensures { OnOk result (out.new ≡ fold S.then out.old (class_on call.now.app.now call.now.lists.now call.now.node
        receiver.register receiver.site call.now.kind call.now.at.now (option_copied class.entry))) }
{
    match class {
        None => Ok(()),
        Some(class) => {
            let to = target(
                call.app,
                call.kind,
                call.node.by.method,
                call.at,
                Some(class),
            );
            come_by_class(call, receiver, to, out)
        }
    }
}

/// What follows where the receiver of a virtual or interface call may be an object of the site.
pub fn received<S: Sink>(
    app: &App,
    lists: &LibraryIndex<'_>,
    receiver: Pointer,
    act: &Act,
    out: &mut S,
) -> Result<(), S::Refusal>
    requires sound { SoundApp app.now }
    requires lists { SoundLists lists.now }
    requires caller { receiver.node.by.method < length app.now.methods }
    ensures { OnOk result (out.new ≡ fold S.then out.old (receives app.now lists.now receiver.node receiver.register
        receiver.site act.now)) }
{
    match act {
        Act::Call(kind, at, args) => {
            if is_by_receiver(*kind) && is_argument(args.as_slice(), 0, receiver.register) {
                let call = Call {
                    app,
                    lists,
                    node: receiver.node,
                    kind: *kind,
                    at,
                };
                let class = site_class(app, lists.lists(), receiver.site);
                by_class(&call, receiver, class, out)
            } else {
                Ok(())
            }
        }
        _ => Ok(()),
    }
}
