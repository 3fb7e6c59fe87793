ghost use Rattle.std.specs.Prelude.{◌≡◌, ◌&&◌};
ghost use Rattle.app_machine.specs.Sound.{SoundApp};
ghost use Rattle.app_rows.specs.Tests.{is_activation_in, is_node_in, is_place_in, is_register_in};

use crate::contexts::is_ctx_in;
use app_model::{App, step_at};
use app_parts::RESULT;
use event_index::EventIndex;
use fact_rows::{Activation, Node};
use rule_ground::EXCEPTION;

pub(crate) fn is_activation_in(index: &EventIndex<'_>, by: Activation) -> bool
    requires { SoundApp index.now.0 }
    ensures { result ≡ is_activation_in index.now.0 index.now.1 by }
{
    (by.method as usize) < index.app().methods.len() && is_ctx_in(index, by.ctx)
}

/// Whether the method has a step at the address, or is native and the address is 0.
fn is_place_in(app: &App, method: u32, pc: u32) -> bool
    requires { SoundApp app.now }
    ensures { result ≡ is_place_in app.now method pc }
{
    step_at(app, method, pc).is_some()
        || pc == 0
            && match app.methods.get(method as usize) {
                Some(method) => method.is_native,
                None => false,
            }
}

pub(crate) fn is_node_in(index: &EventIndex<'_>, node: Node) -> bool
    requires { SoundApp index.now.0 }
    ensures { result ≡ is_node_in index.now.0 index.now.1 node }
{
    is_place_in(index.app(), node.by.method, node.pc) && is_activation_in(index, node.by)
}

/// Whether the register is one of the node's method, or RES or EXC.
pub(crate) fn is_register_in(app: &App, node: Node, register: u32) -> bool
    ensures { result ≡ is_register_in app.now node register }
{
    register == RESULT
        || register == EXCEPTION
        || match app.methods.get(node.by.method as usize) {
            Some(method) => register < method.registers,
            None => false,
        }
}
