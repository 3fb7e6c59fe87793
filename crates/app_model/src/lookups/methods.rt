ghost use Rattle.std.specs.Prelude.{◌≡◌};
ghost use Rattle.std.specs.Ordering.{ordering_then};
ghost use Rattle.app_machine.specs.Lookups.{initialiser_of, method_of, method_with};
ghost use Rattle.app_machine.specs.Names.{descriptor_of, initialiser_name, initialiser_proto, same_proto};
ghost use Rattle.app_machine.specs.Sound.{SoundApp, field_order, name_order};
ghost use Rattle.app_model.specs.Search.{method_key};

use crate::lookups::descriptor::{compare_descriptor, compare_descriptors};
use crate::lookups::equality::is_same_proto;
use crate::{App, Method, Proto};
use std::cmp::Ordering;

/// The number of the method that the class itself defines, with code or as native.
#[tactic(auto, unfolding(app_machine::specs::Lookups::method_of))]
pub(super) fn method_of(app: &App, class: &[u8], name: &[u8], proto: &Proto) -> Option<u32>
    requires { SoundApp app.now }
    ensures { result ≡ method_of app.now class.now name.now proto.now }
{
    let methods = app.methods.as_slice();
    match methods.binary_search_by(|method| compare_by_proto(method, class, name, proto)) {
        Ok(i) => {
            if is_same_proto(&methods[i].at.proto, proto) {
                Some(i as u32)
            } else {
                None
            }
        }
        Err(_) => None,
    }
}

/// The same by the text of the descriptor.
#[tactic(auto, unfolding(app_machine::specs::Lookups::method_with))]
pub(super) fn method_with(app: &App, class: &[u8], name: &[u8], descriptor: &[u8]) -> Option<u32>
    requires { SoundApp app.now }
    ensures { result ≡ method_with app.now class.now name.now descriptor.now }
{
    let methods = app.methods.as_slice();
    match methods.binary_search_by(|method| compare_by_text(method, class, name, descriptor)) {
        Ok(i) => Some(i as u32),
        Err(_) => None,
    }
}

/// The number of the class's own initialiser: the method with its name, no parameters and no result.
#[tactic(auto, unfolding(app_machine::specs::Lookups::initialiser_of))]
pub(super) fn initialiser_of(app: &App, class: &[u8]) -> Option<u32>
    requires { SoundApp app.now }
    ensures { result ≡ initialiser_of app.now class.now }
{
    let methods = app.methods.as_slice();
    let name = initialiser_name();
    let descriptor = initialiser_descriptor();
    match methods.binary_search_by(|method| compare_by_text(method, class, name, descriptor)) {
        Ok(i) => {
            if takes_nothing(&methods[i].at.proto) {
                Some(i as u32)
            } else {
                None
            }
        }
        Err(_) => None,
    }
}

#[tactic(auto, unfolding(app_machine::specs::Names::initialiser_name))]
pub(super) fn initialiser_name() -> &'static [u8]
    ensures { result.now ≡ initialiser_name }
{
    b"<clinit>"
}

#[tactic(auto, unfolding(app_machine::specs::Names::initialiser_proto, app_machine::specs::Names::descriptor_of))]
fn initialiser_descriptor() -> &'static [u8]
    ensures { result.now ≡ descriptor_of initialiser_proto }
{
    b"()V"
}

/// Whether the prototype is that of initialisers: no parameters and no result.
#[tactic(auto, unfolding(app_machine::specs::Names::initialiser_proto), using(crate::proofs::Methods::no_names, crate::proofs::Methods::some_names))]
fn takes_nothing(proto: &Proto) -> bool
    ensures { result ≡ same_proto proto.now initialiser_proto }
{
    proto.params.is_empty() && proto.ret.as_bytes() == b"V".as_slice()
}

fn compare_by_proto(method: &Method, class: &[u8], name: &[u8], proto: &Proto) -> Ordering
    ensures { result ≡ field_order (method_key method.now) (class.now, name.now, descriptor_of proto.now) }
{
    match compare_names(method, class, name) {
        Ordering::Equal => compare_descriptors(&method.at.proto, proto),
        order => order,
    }
}

fn compare_by_text(method: &Method, class: &[u8], name: &[u8], descriptor: &[u8]) -> Ordering
    ensures { result ≡ field_order (method_key method.now) (class.now, name.now, descriptor.now) }
{
    match compare_names(method, class, name) {
        Ordering::Equal => compare_descriptor(&method.at.proto, descriptor),
        order => order,
    }
}

/// How the method's class and name compare with these.
fn compare_names(method: &Method, class: &[u8], name: &[u8]) -> Ordering
    ensures { result ≡ ordering_then (name_order method.now.at.class class.now)
        (name_order method.now.at.name name.now) }
{
    match method.at.class.as_bytes().cmp(class) {
        Ordering::Equal => method.at.name.as_bytes().cmp(name),
        order => order,
    }
}
