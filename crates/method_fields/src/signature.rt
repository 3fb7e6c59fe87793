//! What tells one method of the lists from another.
ghost use Rattle.std.specs.Prelude.{◌≡◌, ◌+◌, length, IfOk};
ghost use Rattle.std.proofs.Common.{rules};
ghost use Rattle.std.specs.Cmp.Rules.{comparing};
ghost use Rattle.method_fields.specs.Signature.{same_key, key_once, keys_once, proto_at, type_at, key_of};
ghost use Rattle.app_machine.specs.Names.{is_reference};
ghost use Rattle.app_machine.specs.Summaries.{position_count};
ghost use Rattle.toml.specs.View.{table_view};
ghost use Rattle.vet_base.specs.Script.{Gives};

use crate::descriptor::{is_type, proto_of};
use app_machine::Proto;
use form_fields::{Fault, Index, Key, Section, Spelling, text_at};
use std::alloc::Global;
use toml::Table;
use vet_base::{Memory, Name, Stop};

/// The class, the name, the descriptor and the static word of a method row.
#[derive(Eq, PartialOrd, Ord, Drop)]
pub struct MethodKey {
    pub class: Name,
    pub name: Name,
    pub descriptor: Name,
    pub is_static: bool,
}

impl PartialEq for MethodKey {
    ghost use Rattle.method_fields.specs.SameKey.{same_row};

    ghost eq = { λ a b. same_row a.class b.class a.name b.name a.descriptor b.descriptor a.is_static b.is_static };

    ghost laws = { Prim.search (comparing, rules) };

    fn eq(&self, other: &MethodKey) -> bool {
        self.class == other.class
            && self.name == other.name
            && self.descriptor == other.descriptor
            && self.is_static == other.is_static
    }
}

impl MethodKey {
    /// The same key in memory of its own.
    pub fn copy(&self) -> Result<MethodKey, Memory>
        ensures { IfOk result (λ k. k ≡ self.now) }
    {
        Ok(MethodKey {
            class: self.class.copy()?,
            name: self.name.copy()?,
            descriptor: self.descriptor.copy()?,
            is_static: self.is_static,
        })
    }
}

/// The first four keys of a method row.
#[derive(Drop)]
pub struct Signature {
    pub class: Name,
    pub name: Name,
    pub proto: Proto,
    /// The prototype as it stands in the row.
    pub descriptor: Name,
    pub is_static: bool,
}

impl Signature {
    /// What tells the row from others.
    #[tactic(auto, unfolding(crate::specs::Signature::key_of))]
    pub fn key(&self) -> Result<MethodKey, Memory>
        ensures { IfOk result (λ k. k ≡ key_of self.now) }
    {
        Ok(MethodKey {
            class: self.class.copy()?,
            name: self.name.copy()?,
            descriptor: self.descriptor.copy()?,
            is_static: self.is_static,
        })
    }
}

/// The prototype of a row, and its descriptor as it stands there: `Missing` where there is none, `Wrong` where
/// it is no text, `Range` where the text is no descriptor.
#[tactic(auto, unfolding(crate::specs::Signature::proto_at), using(vet_base::proofs::Scripts::run_bind))]
pub fn proto_at(
    alloc: Global,
    table: &Table,
    section: Section,
) -> Result<(Proto, Name), Stop<Fault>>
    ensures { Gives (λ x. x) result (proto_at section (table_view table.now)) }
{
    let descriptor = text_at(alloc, table, section, Key::Proto, Spelling::Any)?;
    let proto = proto_of(alloc, descriptor.as_bytes(), section, Key::Proto)?;
    Ok((proto, descriptor))
}

/// The type of a field: `Missing` where there is none, `Wrong` where it is no text, `Range` where the text is no
/// descriptor of a type of 1 to 255 bytes.
#[tactic(auto, unfolding(crate::specs::Signature::type_at), using(vet_base::proofs::Scripts::run_bind))]
pub fn type_at(alloc: Global, table: &Table, section: Section) -> Result<Name, Stop<Fault>>
    ensures { Gives (λ n. n) result (type_at section (table_view table.now)) }
{
    let text = text_at(alloc, table, section, Key::Type, Spelling::Text)?;
    if !is_type(text.as_bytes()) {
        return Err(Stop::Fault(Fault::Range(section, Key::Type)));
    }
    Ok(text)
}

/// How many positions a call has: its parameters, and the receiver of a method that is not static.
pub fn position_count(is_static: bool, proto: &Proto) -> usize
    ensures { result ≡ position_count is_static proto.now }
{
    let params = proto.params.as_slice().len();
    if is_static { params } else { params + 1 }
}

/// Whether the result of a method is of a class or an array.
#[tactic(auto, unfolding(app_machine::specs::Names::is_reference))]
pub fn gives_reference(proto: &Proto) -> bool
    ensures { result ≡ is_reference proto.now.ret }
{
    match proto.ret.as_bytes().first() {
        Some(byte) => *byte == b'L' || *byte == b'[',
        None => false,
    }
}

/// The keys, of which none may stand twice: the name of the first that does is `Fault::Twice`.
#[tactic(auto, unfolding(crate::specs::Signature::keys_once), using(vet_base::proofs::Eaches::each_begins, vet_base::proofs::Eaches::each_goes_on, vet_base::proofs::Eaches::each_fails, vet_base::proofs::Eaches::each_is_done))]
pub fn keys_once(alloc: Global, keys: &[MethodKey]) -> Result<Index<MethodKey>, Stop<Fault>>
    ensures { Gives (λ x. x) result (keys_once keys.now) }
{
    let mut seen = Index::new(alloc);
    for key in keys {
        seen = key_once(key, seen)?;
    }
    Ok(seen)
}

#[tactic(auto, unfolding(crate::specs::Signature::key_once))]
fn key_once(key: &MethodKey, seen: Index<MethodKey>) -> Result<Index<MethodKey>, Stop<Fault>>
    ensures { Gives (λ x. x) result (key_once key.now seen) }
{
    if seen.place_of(key).is_some() {
        return Err(Stop::Fault(Fault::Twice(key.name.copy()?)));
    }
    Ok(seen.with(key.copy()?, key.copy()?)?)
}
