//! The descriptors of methods.
ghost use Rattle.std.specs.Prelude.{◌≡◌, ◌<◌, ◌≤◌, ◌+◌, length, drop, IfOk, IfSome, IsTrue};
ghost use Rattle.method_fields.specs.Descriptor.{is_primitive, first_semicolon, base_length, first_of_base};
ghost use Rattle.method_fields.specs.Descriptor.{type_length, has_param, param_at, params_of, is_type};
ghost use Rattle.method_fields.specs.Descriptor.{is_void, has_result, has_params, proto_of};
ghost use Rattle.vet_base.specs.Script.{Gives};

use app_machine::Proto;
use form_fields::{Fault, Key, Section};
use std::alloc::Global;
use vet_base::{Name, Shared, Stop};

/// The parameters and the result that a descriptor names: `Range` of the key where the text is none.
#[tactic(auto, unfolding(crate::specs::Descriptor::proto_of), using(vet_base::proofs::Scripts::run_bind))]
pub fn proto_of(
    alloc: Global,
    text: &[u8],
    section: Section,
    key: Key,
) -> Result<Proto, Stop<Fault>>
    ensures { Gives (λ p. p) result (proto_of section key text.now) }
{
    if !has_params(text) {
        return Err(Stop::Fault(Fault::Range(section, key)));
    }
    let (params, at) = params_of(alloc, text, section, key)?;
    if !has_result(text, at) {
        return Err(Stop::Fault(Fault::Range(section, key)));
    }
    let ret = Name::from_bytes(alloc, behind(text, at))?;
    Ok(Proto {
        params: Shared::from_vec(alloc, params)?,
        ret,
    })
}

/// What stands behind a byte.
fn behind(text: &[u8], at: usize) -> &[u8]
    requires { at < length text.now }
    ensures { result.now ≡ drop (at + 1) text.now }
{
    &text[at + 1..]
}

#[tactic(auto, unfolding(crate::specs::Descriptor::has_params))]
fn has_params(text: &[u8]) -> bool
    ensures { result ≡ has_params text.now }
{
    !text.is_empty() && text[0] == b'('
}

/// The parameters, and where they end.
#[tactic(auto, unfolding(crate::specs::Descriptor::params_of), using(vet_base::proofs::Scripts::sweep_begins, vet_base::proofs::Scripts::sweep_goes_on, vet_base::proofs::Scripts::sweep_fails, vet_base::proofs::Scripts::sweep_is_done))]
fn params_of(
    alloc: Global,
    text: &[u8],
    section: Section,
    key: Key,
) -> Result<(Vec<Name>, usize), Stop<Fault>>
    ensures { Gives (λ x. (x.0.items, x.1)) result (params_of section key text.now) }
{
    let mut params = Vec::new(alloc);
    let mut at = 1;
    for _ in 0..text.len() {
        if !has_param(text, at) {
            return Ok((params, at));
        }
        let (param, next) = param_at(alloc, text, at, section, key)?;
        params.push(param)?;
        at = next;
    }
    Ok((params, at))
}

#[tactic(auto, unfolding(crate::specs::Descriptor::has_param))]
fn has_param(text: &[u8], at: usize) -> bool
    ensures value { result ≡ has_param text.now at }
    ensures within { IsTrue result → at < length text.now }
{
    at < text.len() && text[at] != b')'
}

/// A parameter, and where it ends.
#[tactic(auto, unfolding(crate::specs::Descriptor::param_at))]
fn param_at(
    alloc: Global,
    text: &[u8],
    at: usize,
    section: Section,
    key: Key,
) -> Result<(Name, usize), Stop<Fault>>
    requires { at ≤ length text.now }
    ensures value { Gives (λ x. x) result (param_at section key text.now at) }
    ensures further { IfOk result (λ x. (at < x.1) × (x.1 ≤ length text.now)) }
{
    let rest = &text[at..];
    match type_length(rest) {
        Some(size) => Ok((Name::from_bytes(alloc, &rest[..size])?, at + size)),
        None => Err(Stop::Fault(Fault::Range(section, key))),
    }
}

/// The length of the type at the head of a text, where there is one.
#[tactic(auto, unfolding(crate::specs::Descriptor::type_length))]
fn type_length(text: &[u8]) -> Option<usize>
    ensures value { result ≡ type_length text.now }
    ensures within { IfSome result (λ n. (0 < n) × (n ≤ length text.now)) }
{
    let brackets = first_of_base(text)?;
    if brackets > 255 {
        return None;
    }
    match base_length(&text[brackets..]) {
        Some(size) => Some(brackets + size),
        None => None,
    }
}

#[tactic(auto, unfolding(crate::specs::Descriptor::first_of_base))]
fn first_of_base(text: &[u8]) -> Option<usize>
    ensures value { result ≡ first_of_base text.now }
    ensures within { IfSome result (λ n. n < length text.now) }
{
    text.iter().position(|byte| *byte != b'[')
}

/// The length of the type at the head of a text that is no array.
#[tactic(auto, unfolding(crate::specs::Descriptor::base_length))]
fn base_length(text: &[u8]) -> Option<usize>
    requires { 0 < length text.now }
    ensures value { result ≡ base_length text.now }
    ensures within { IfSome result (λ n. (0 < n) × (n ≤ length text.now)) }
{
    if is_primitive(text[0]) {
        return Some(1);
    }
    if text[0] != b'L' {
        return None;
    }
    match first_semicolon(text) {
        Some(end) if 2 <= end => Some(end + 1),
        _ => None,
    }
}

#[tactic(auto, unfolding(crate::specs::Descriptor::first_semicolon))]
fn first_semicolon(text: &[u8]) -> Option<usize>
    ensures value { result ≡ first_semicolon text.now }
    ensures within { IfSome result (λ n. n < length text.now) }
{
    text.iter().position(|byte| *byte == b';')
}

#[tactic(auto, unfolding(crate::specs::Descriptor::is_primitive))]
fn is_primitive(byte: u8) -> bool
    ensures { result ≡ is_primitive byte }
{
    matches!(byte, b'Z' | b'B' | b'S' | b'C' | b'I' | b'J' | b'F' | b'D')
}

/// Whether `)` stands there, and behind it `V` or a type.
#[tactic(auto, unfolding(crate::specs::Descriptor::has_result))]
fn has_result(text: &[u8], at: usize) -> bool
    ensures value { result ≡ has_result text.now at }
    ensures within { IsTrue result → at < length text.now }
{
    if at >= text.len() || text[at] != b')' {
        return false;
    }
    is_void(&text[at + 1..]) || is_type(&text[at + 1..])
}

#[tactic(auto, unfolding(crate::specs::Descriptor::is_void))]
fn is_void(text: &[u8]) -> bool
    ensures { result ≡ is_void text.now }
{
    text.len() == 1 && text[0] == b'V'
}

/// Whether the text is the descriptor of a type other than `V`.
#[tactic(auto, unfolding(crate::specs::Descriptor::is_type))]
pub fn is_type(text: &[u8]) -> bool
    ensures { result ≡ is_type text.now }
{
    match type_length(text) {
        Some(size) => size == text.len(),
        None => false,
    }
}
