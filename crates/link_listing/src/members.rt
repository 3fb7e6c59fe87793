//! The fields and methods of the files, by class, name and type or descriptor.

ghost use Rattle.std.specs.Prelude.{◌≡◌, IfOk, ◌++◌};
ghost use Rattle.vet_base.specs.Script.{Gives};
ghost use Rattle.app_machine.specs.Names.{descriptor_of, joined};
ghost use Rattle.link_listing.specs.MemberRows.{all_members, class_members, dex_members, field_named, first_of};
ghost use Rattle.link_listing.specs.MemberRows.{listed_of, method_named, one_field, one_method, some_fields};
ghost use Rattle.link_listing.specs.MemberRows.{some_methods};
ghost use Rattle.link_listing.specs.Orders.{has_triple, with_triple};
ghost use Rattle.link_listing.specs.Texts.{method_row, proto_of};

use crate::fault::{Fault, Halt};
use crate::flags::{says_native, says_static};
use crate::texts::{field_row_at, method_row_at, proto_at, text_at, type_at};
use app_model::Proto;
use dex_tables::{Body, ClassDef, Dex, Member};
use std::alloc::Global;
use std::collections::BTreeMap;
use vet_base::{Memory, Name, Stop};

/// A class, a name, and a type or descriptor.
pub type Triple = (Name, Name, Name);

/// Where the code of a method stands: the file, the row of `class_defs`,
/// which of its two lists of methods, and the number there.
#[derive(Clone, Copy)]
pub struct Place {
    pub dex: usize,
    pub class: usize,
    pub is_virtual: bool,
    pub body: usize,
}

/// What the files say of a method, beside its class and its name.
#[derive(Drop)]
pub struct Listed {
    pub proto: Proto,
    pub is_static: bool,
    pub is_native: bool,
    pub has_code: bool,
    pub place: Place,
}

/// Fields, each with whether it is static.
pub type Fields = BTreeMap<Triple, bool>;

/// Methods, each with what the files say of it.
pub type Methods = BTreeMap<Triple, Listed>;

/// The members of all classes.
#[derive(Drop)]
pub struct Members {
    pub fields: Fields,
    pub methods: Methods,
}

#[tactic(auto, unfolding(crate::specs::Orders::named_triple))]
pub fn holds_triple<X>(entries: &BTreeMap<Triple, X>, triple: &Triple) -> bool
    ensures { result ≡ has_triple entries.now.entries triple.now }
{
    entries.contains_key(triple)
}

#[tactic(auto, unfolding(crate::specs::Orders::with_triple))]
fn with_entry<X: Drop>(
    mut entries: BTreeMap<Triple, X>,
    triple: Triple,
    x: X,
) -> Result<BTreeMap<Triple, X>, Memory>
    ensures { IfOk result (λ m. m.entries ≡ with_triple entries.entries triple x) }
{
    entries.insert(triple, x)?;
    Ok(entries)
}

fn add_name(bytes: &mut Vec<u8>, name: &Name) -> Result<(), Memory>
    ensures { IfOk result (λ _. bytes.new.items ≡ bytes.old.items ++ name.now) }
{
    bytes.extend_from_slice(name.as_bytes())?;
    Ok(())
}

#[tactic(auto, using(crate::proofs::Joined::joined_begins, crate::proofs::Joined::joined_goes_on, crate::proofs::Joined::joined_is_done))]
fn add_names(bytes: &mut Vec<u8>, names: &[Name]) -> Result<(), Memory>
    ensures { IfOk result (λ _. bytes.new.items ≡ bytes.old.items ++ joined names.now) }
{
    for name in names {
        add_name(bytes, name)?;
    }
    Ok(())
}

/// The text of a method's descriptor. Want of memory is the only error.
#[tactic(auto, unfolding(app_machine::specs::Names::descriptor_of))]
pub fn descriptor(alloc: Global, proto: &Proto) -> Result<Name, Memory>
    ensures { IfOk result (λ d. d ≡ descriptor_of proto.now) }
{
    let mut bytes = b"(".to_vec(alloc)?;
    add_names(&mut bytes, proto.params.as_slice())?;
    bytes.extend_from_slice(b")")?;
    add_name(&mut bytes, &proto.ret)?;
    Name::new(alloc, bytes)
}

#[tactic(auto, unfolding(crate::specs::MemberRows::field_named))]
fn name_field(alloc: Global, dex: &Dex, class: &Name, member: &Member) -> Result<Triple, Memory>
    ensures { IfOk result (λ t. t ≡ field_named dex.now class.now member.now) }
{
    let row = field_row_at(dex, member.index);
    let class = class.copy()?;
    let name = text_at(alloc, dex, row.name)?;
    let kind = type_at(alloc, dex, row.kind)?;
    Ok((class, name, kind))
}

/// A method by its class, its name and the text of its prototype's descriptor.
#[tactic(auto, unfolding(crate::specs::MemberRows::method_named))]
fn name_method(
    alloc: Global,
    dex: &Dex,
    class: &Name,
    body: &Body,
    proto: &Proto,
) -> Result<Triple, Memory>
    requires { proto.now ≡ proto_of dex.now (method_row dex.now body.now.index).proto }
    ensures { IfOk result (λ t. t ≡ method_named dex.now class.now body.now) }
{
    let class = class.copy()?;
    let name = text_at(alloc, dex, method_row_at(dex, body.index).name)?;
    let descriptor = descriptor(alloc, proto)?;
    Ok((class, name, descriptor))
}

#[tactic(auto, unfolding(crate::specs::MemberRows::listed_of))]
fn list_method(alloc: Global, dex: &Dex, place: Place, body: &Body) -> Result<Listed, Memory>
    ensures value { IfOk result (λ l. l ≡ listed_of dex.now place body.now) }
    ensures proto { IfOk result (λ l. l.proto ≡ proto_of dex.now (method_row dex.now body.now.index).proto) }
{
    let row = method_row_at(dex, body.index);
    let proto = proto_at(alloc, dex, row.proto)?;
    Ok(Listed {
        proto,
        is_static: says_static(body.flags),
        is_native: says_native(body.flags),
        has_code: body.code.is_some(),
        place,
    })
}

#[tactic(auto, unfolding(crate::specs::MemberRows::one_field), using(vet_base::proofs::Scripts::run_bind))]
fn add_field(
    alloc: Global,
    dex: &Dex,
    class: &Name,
    is_static: bool,
    member: &Member,
    fields: Fields,
) -> Result<Fields, Halt>
    ensures { Gives (λ m. m.entries) result (one_field dex.now class.now is_static member.now fields.entries) }
{
    let triple = name_field(alloc, dex, class, member)?;
    if holds_triple(&fields, &triple) {
        let (class, name, _) = triple;
        return Err(Stop::Fault(Fault::TwoMembers(class, name)));
    }
    Ok(with_entry(fields, triple, is_static)?)
}

#[tactic(auto, unfolding(crate::specs::MemberRows::some_fields), using(vet_base::proofs::Eaches::each_begins, vet_base::proofs::Eaches::each_goes_on_at, vet_base::proofs::Eaches::each_fails_at, vet_base::proofs::Eaches::each_is_done))]
fn add_fields(
    alloc: Global,
    dex: &Dex,
    class: &Name,
    is_static: bool,
    members: &[Member],
    mut fields: Fields,
) -> Result<Fields, Halt>
    ensures { Gives (λ m. m.entries) result (some_fields dex.now class.now is_static members.now fields.entries) }
{
    for member in members {
        fields = add_field(alloc, dex, class, is_static, member, fields)?;
    }
    Ok(fields)
}

#[tactic(auto, unfolding(crate::specs::MemberRows::one_method), using(vet_base::proofs::Scripts::run_bind))]
fn add_method(
    alloc: Global,
    dex: &Dex,
    class: &Name,
    place: Place,
    body: &Body,
    methods: Methods,
) -> Result<Methods, Halt>
    ensures { Gives (λ m. m.entries) result (one_method dex.now class.now place body.now methods.entries) }
{
    let listed = list_method(alloc, dex, place, body)?;
    let triple = name_method(alloc, dex, class, body, &listed.proto)?;
    if holds_triple(&methods, &triple) {
        let (class, name, _) = triple;
        return Err(Stop::Fault(Fault::TwoMembers(class, name)));
    }
    Ok(with_entry(methods, triple, listed)?)
}

#[tactic(auto, unfolding(crate::specs::MemberRows::some_methods), using(vet_base::proofs::Throughs::through_begins, vet_base::proofs::Throughs::through_goes_on, vet_base::proofs::Throughs::through_fails, vet_base::proofs::Throughs::through_is_done))]
fn add_methods(
    alloc: Global,
    dex: &Dex,
    class: &Name,
    first: Place,
    bodies: &[Body],
    mut methods: Methods,
) -> Result<Methods, Halt>
    ensures { Gives (λ m. m.entries) result (some_methods dex.now class.now first bodies.now methods.entries) }
{
    for (i, body) in bodies.iter().enumerate() {
        let place = Place { body: i, ..first };
        methods = add_method(alloc, dex, class, place, body, methods)?;
    }
    Ok(methods)
}

/// The first place of a list of methods.
fn first_place(dex: usize, class: usize, is_virtual: bool) -> Place
    ensures { result ≡ first_of dex class is_virtual }
{
    Place {
        dex,
        class,
        is_virtual,
        body: 0,
    }
}

#[tactic(auto, unfolding(crate::specs::MemberRows::class_members), using(vet_base::proofs::Scripts::run_bind))]
fn add_class_members(
    alloc: Global,
    d: usize,
    dex: &Dex,
    c: usize,
    def: &ClassDef,
    members: Members,
) -> Result<Members, Halt>
    ensures { Gives (λ m. (m.fields.entries, m.methods.entries)) result
        (class_members d dex.now c def.now (members.fields.entries, members.methods.entries)) }
{
    let Members { fields, methods } = members;
    let class = type_at(alloc, dex, def.class)?;
    let fields = add_fields(alloc, dex, &class, true, def.statics.as_slice(), fields)?;
    let fields = add_fields(alloc, dex, &class, false, def.instances.as_slice(), fields)?;
    let first = first_place(d, c, false);
    let methods = add_methods(alloc, dex, &class, first, def.directs.as_slice(), methods)?;
    let first = first_place(d, c, true);
    let methods = add_methods(alloc, dex, &class, first, def.virtuals.as_slice(), methods)?;
    Ok(Members { fields, methods })
}

#[tactic(auto, unfolding(crate::specs::MemberRows::dex_members), using(vet_base::proofs::Throughs::through_begins, vet_base::proofs::Throughs::through_goes_on, vet_base::proofs::Throughs::through_fails, vet_base::proofs::Throughs::through_is_done))]
fn add_dex_members(
    alloc: Global,
    d: usize,
    dex: &Dex,
    mut members: Members,
) -> Result<Members, Halt>
    ensures { Gives (λ m. (m.fields.entries, m.methods.entries)) result
        (dex_members d dex.now (members.fields.entries, members.methods.entries)) }
{
    for (c, def) in dex.classes.as_slice().iter().enumerate() {
        members = add_class_members(alloc, d, dex, c, def, members)?;
    }
    Ok(members)
}

/// The members of all files.
#[tactic(auto, unfolding(crate::specs::MemberRows::all_members), using(vet_base::proofs::Throughs::through_begins, vet_base::proofs::Throughs::through_goes_on, vet_base::proofs::Throughs::through_fails, vet_base::proofs::Throughs::through_is_done))]
pub fn members_of(alloc: Global, dexes: &[Dex]) -> Result<Members, Halt>
    ensures { Gives (λ m. (m.fields.entries, m.methods.entries)) result (all_members dexes.now) }
{
    let mut members = Members {
        fields: BTreeMap::new(alloc),
        methods: BTreeMap::new(alloc),
    };
    for (d, dex) in dexes.iter().enumerate() {
        members = add_dex_members(alloc, d, dex, members)?;
    }
    Ok(members)
}
