//! What it is for a node to enter a body, to pass it a content, and to use what the lists say.
ghost use Rattle.std.specs.Prelude.{◌≡◌, OnOk, fold};
ghost use Rattle.app_machine.specs.Lookups.{is_static_call as is_static_of};
ghost use Rattle.app_machine.specs.Sound.{SoundApp};
ghost use Rattle.app_machine.specs.SoundLists.{SoundLists};
ghost use Rattle.app_machine.specs.Summaries.{summary};
ghost use Rattle.call_targets.specs.EnterGiven.{with_code, enters, argument_of, argument_register as register_of};
ghost use Rattle.call_targets.specs.EnterGiven.{passed_to, uses_row, looks_up};

use crate::numbers;
use app_index::LibraryIndex;
use app_machine::{App, CallKind, Method, MethodRef, SummaryId};
use app_model::summary_of;
use app_parts::{SummaryView, is_reflective, is_static_call};
use fact_rows::{Activation, NATIVE, NO_SUMMARY, Node, REFLECTIVE, Row};
use rule_ground::{Conclusion, Content, Premises, Sink, callee, entry};
use vet_base::Name;

/// A call instruction at a node.
#[derive(Clone, Copy)]
pub struct Call<'a> {
    pub app: &'a App,
    pub lists: &'a LibraryIndex<'a>,
    pub node: Node,
    pub kind: CallKind,
    pub at: &'a MethodRef,
}

/// The node enters a body with code.
fn enter_code<S: Sink>(
    rule: u8,
    premises: Premises,
    node: Node,
    body: u32,
    out: &mut S,
) -> Result<(), S::Refusal>
    ensures { OnOk result (out.new ≡ fold S.then out.old (with_code rule premises node body)) }
{
    let by = callee(node, body);
    out.put(Conclusion {
        rule,
        premises,
        row: Row::Calls(node, by),
    })?;
    out.put(Conclusion {
        rule,
        premises,
        row: Row::CalledBy(by, node),
    })?;
    out.put(Conclusion {
        rule,
        premises,
        row: Row::Reached(entry(by)),
    })
}

/// The node enters the body: one with code is called, and of a native one nothing is known.
pub fn enter<S: Sink>(
    app: &App,
    rule: u8,
    premises: Premises,
    node: Node,
    body: u32,
    out: &mut S,
) -> Result<(), S::Refusal>
    ensures { OnOk result (out.new ≡ fold S.then out.old (enters app.now rule premises node body)) }
{
    match app.methods.get(body as usize) {
        None => Ok(()),
        Some(method) => {
            if method.is_native {
                out.put(Conclusion {
                    rule,
                    premises,
                    row: Row::Unknown(node, NATIVE),
                })
            } else {
                enter_code(rule, premises, node, body, out)
            }
        }
    }
}

/// The register of the method that takes the argument of this index, where it has code and as many.
fn argument_of(method: &Method, index: usize) -> Option<u32>
    ensures { result ≡ argument_of (Some method.now) index }
{
    if !method.is_native && index < method.ins as usize {
        Some(method.registers.saturating_sub(method.ins) + index as u32)
    } else {
        None
    }
}

/// The same by the number of the method.
pub fn argument_register(app: &App, body: u32, index: usize) -> Option<u32>
    ensures { result ≡ register_of app.now body index }
{
    match app.methods.get(body as usize) {
        None => None,
        Some(method) => argument_of(method, index),
    }
}

/// The register, where there is one, holds the content where the activation begins.
pub fn pass_to<S: Sink>(
    rule: u8,
    premises: Premises,
    content: Content,
    by: Activation,
    register: Option<u32>,
    out: &mut S,
) -> Result<(), S::Refusal>
    ensures { OnOk result (out.new ≡ fold S.then out.old (passed_to rule premises content by register)) }
{
    match register {
        None => Ok(()),
        Some(register) => out.put(Conclusion {
            rule,
            premises,
            row: content.held(entry(by), register),
        }),
    }
}

/// The call uses the row or default of this key.
fn use_row<S: Sink>(
    call: &Call<'_>,
    premises: Premises,
    key: SummaryId,
    out: &mut S,
) -> Result<(), S::Refusal>
    ensures { OnOk result
        (out.new ≡ fold S.then out.old (uses_row premises call.now.node key
        (summary call.now.lists.now key call.now.at.now (is_static_of call.now.kind)))) }
{
    match summary_of(call.lists.lists(), key) {
        None => Ok(()),
        Some(view) => {
            let row = if is_reflective(view) {
                Row::Unknown(call.node, REFLECTIVE)
            } else {
                Row::Uses(call.node, key)
            };
            out.put(Conclusion {
                rule: numbers::USE_LIBRARY,
                premises,
                row,
            })
        }
    }
}

/// The call comes to the class of the library.
pub fn look_up<S: Sink>(
    call: &Call<'_>,
    premises: Premises,
    class: &Name,
    out: &mut S,
) -> Result<(), S::Refusal>
    requires sound { SoundApp call.now.app.now }
    requires lists { SoundLists call.now.lists.now }
    ensures { OnOk result (out.new ≡ fold S.then out.old (looks_up call.now.app.now call.now.lists.now premises
        call.now.node call.now.kind call.now.at.now class.now)) }
{
    let is_static = is_static_call(call.kind);
    match call
        .lists
        .key(call.app, class, &call.at.name, &call.at.proto, is_static)
    {
        None => out.put(Conclusion {
            rule: numbers::USE_LIBRARY,
            premises,
            row: Row::Unknown(call.node, NO_SUMMARY),
        }),
        Some(key) => use_row(call, premises, key, out),
    }
}
