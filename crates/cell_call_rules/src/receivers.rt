//! Rule 23: the receiver of a call comes to the body for its class.
ghost use Rattle.std.specs.Prelude.{◌≡◌, ◌<◌, OnOk, fold, length};
ghost use Rattle.std.specs.Option.{option_copied};
ghost use Rattle.app_machine.specs.Sound.{SoundApp};
ghost use Rattle.app_model.specs.Targets.{shown_target};
ghost use Rattle.cell_call_rules.specs.CellPassGiven.{class_on, class_to, received as receives};

use crate::numbers;
use crate::passing::pass_to;
use app_index::LibraryIndex;
use app_machine::{Act, App, CallKind, MethodRef};
use app_model::{Target, target};
use app_parts::is_by_receiver;
use call_targets::{Pointer, argument_register, is_argument};
use cell_ground::Content;
use fact_rows::Row;
use register_readers::RegisterReaders;
use rule_ground::{Inference, Premises, Sink, callee};
use site_classes::site_class;
use vet_base::Name;

/// A virtual or interface call, by its kind and the method that it names.
#[derive(Clone, Copy)]
struct Named<'a> {
    kind: CallKind,
    at: &'a MethodRef,
}

/// The receiver comes to the target's body.
fn come_to_target<S: Sink>(
    app: &App,
    readers: &RegisterReaders<'_>,
    receiver: Pointer,
    to: Target,
    out: &mut S,
) -> Result<(), S::Refusal>
    ensures { OnOk result (out.new ≡ fold S.then out.old (class_to app.now readers.now receiver.node receiver.register
        receiver.site (shown_target to.entry))) }
{
    match to {
        Target::Body(body) => {
            let inference = Inference {
                rule: numbers::ENTER_BY_CLASS,
                premises: Premises::of_one(Row::Points(
                    receiver.node,
                    receiver.register,
                    receiver.site,
                )),
            };
            let object = Content::Object(receiver.site);
            let by = callee(receiver.node, body);
            let register = argument_register(app, body, 0);
            pass_to(readers, inference, object, by, register, out)
        }
        Target::Library(_) => Ok(()),
        Target::Nothing => Ok(()),
    }
}

/// The same by the class, where the site has one.
fn come_by_class<S: Sink>(
    app: &App,
    readers: &RegisterReaders<'_>,
    receiver: Pointer,
    call: Named<'_>,
    class: Option<&Name>,
    out: &mut S,
) -> Result<(), S::Refusal>
    requires sound { SoundApp app.now }
    requires caller { receiver.node.by.method < length app.now.methods }
    ensures { OnOk result (out.new ≡ fold S.then out.old (class_on app.now readers.now receiver.node receiver.register
        receiver.site call.entry.kind call.entry.at.now (option_copied class.entry))) }
{
    match class {
        None => Ok(()),
        Some(class) => {
            let caller = receiver.node.by.method;
            let to = target(app, call.kind, caller, call.at, Some(class));
            come_to_target(app, readers, receiver, to, out)
        }
    }
}

/// What follows where the receiver of a virtual or interface call may be an object of the site.
pub fn received<S: Sink>(
    app: &App,
    readers: &RegisterReaders<'_>,
    lists: &LibraryIndex<'_>,
    receiver: Pointer,
    act: &Act,
    out: &mut S,
) -> Result<(), S::Refusal>
    requires sound { SoundApp app.now }
    requires caller { receiver.node.by.method < length app.now.methods }
    ensures { OnOk result (out.new ≡ fold S.then out.old (receives app.now readers.now lists.now receiver.node
        receiver.register receiver.site act.now)) }
{
    match act {
        Act::Call(kind, at, args) => {
            if is_by_receiver(*kind) && is_argument(args.as_slice(), 0, receiver.register) {
                let call = Named { kind: *kind, at };
                let class = site_class(app, lists.lists(), receiver.site);
                come_by_class(app, readers, receiver, call, class, out)
            } else {
                Ok(())
            }
        }
        _ => Ok(()),
    }
}
