//! What the indices of a DEX file name. Names share the bytes of the file's own table.

ghost use Rattle.std.specs.Prelude.{◌≡◌, ◌++◌, IfOk, OnOk};
ghost use Rattle.link_listing.specs.Texts.{field_of, field_row, method_of, method_row};
ghost use Rattle.link_listing.specs.Texts.{proto_of, text_of, type_of, types_of};

use app_model::{MethodRef, Proto};
use dex_tables::{Dex, FieldId, MethodRow};
use std::alloc::Global;
use vet_base::{Memory, Name, Seq, Shared};

/// The string of that index, and an empty one where there is none.
#[tactic(auto, unfolding(crate::specs::Texts::text_of))]
pub fn text_at(alloc: Global, dex: &Dex, i: u32) -> Result<Name, Memory>
    ensures { IfOk result (λ n. n ≡ text_of dex.now i) }
{
    match dex.strings.get(i as usize) {
        Some(text) => text.copy(),
        None => Name::new(alloc, Vec::new(alloc)),
    }
}

/// The descriptor of the type of that index, and an empty one where there is none. Want of memory is the only error.
#[tactic(auto, unfolding(crate::specs::Texts::type_of))]
pub fn type_at(alloc: Global, dex: &Dex, i: u32) -> Result<Name, Memory>
    ensures { IfOk result (λ n. n ≡ type_of dex.now i) }
{
    match dex.types.get(i as usize) {
        Some(text) => text_at(alloc, dex, *text),
        None => Name::new(alloc, Vec::new(alloc)),
    }
}

/// The descriptors of types.
#[tactic(auto, unfolding(crate::specs::Texts::types_of))]
pub fn types_at(alloc: Global, dex: &Dex, types: &[u32]) -> Result<Shared<Name>, Memory>
    ensures { IfOk result (λ names. names ≡ types_of dex.now types.now) }
{
    let mut names = Vec::new(alloc);
    for i in types {
        names.push(type_at(alloc, dex, *i)?)?;
    }
    Shared::from_vec(alloc, names)
}

/// The prototype of that index, and one without parameters and with an empty return type where there is none. Want of
/// memory is the only error.
#[tactic(auto, unfolding(crate::specs::Texts::proto_of))]
pub fn proto_at(alloc: Global, dex: &Dex, i: u32) -> Result<Proto, Memory>
    ensures { IfOk result (λ p. p ≡ proto_of dex.now i) }
{
    match dex.protos.get(i as usize) {
        Some(row) => {
            let params = types_at(alloc, dex, row.params.as_slice())?;
            let ret = type_at(alloc, dex, row.ret)?;
            Ok(Proto { params, ret })
        }
        None => Ok(Proto {
            params: Shared::new(),
            ret: Name::new(alloc, Vec::new(alloc))?,
        }),
    }
}

/// The row of the field of that index, and one of zeros where there is none.
pub fn field_row_at(dex: &Dex, i: u32) -> FieldId
    ensures { result ≡ field_row dex.now i }
{
    match dex.fields.get(i as usize) {
        Some(row) => *row,
        None => FieldId {
            class: 0,
            kind: 0,
            name: 0,
        },
    }
}

/// The class, the name and the type of the field of that index. Want of memory is the only error.
#[tactic(auto, unfolding(crate::specs::Texts::field_of))]
pub fn field_at(alloc: Global, dex: &Dex, i: u32) -> Result<(Name, Name, Name), Memory>
    ensures { IfOk result (λ f. f ≡ field_of dex.now i) }
{
    let row = field_row_at(dex, i);
    let class = type_at(alloc, dex, row.class)?;
    let name = text_at(alloc, dex, row.name)?;
    let kind = type_at(alloc, dex, row.kind)?;
    Ok((class, name, kind))
}

/// The row of the method of that index, and one of zeros where there is none.
pub fn method_row_at(dex: &Dex, i: u32) -> MethodRow
    ensures { result ≡ method_row dex.now i }
{
    match dex.methods.get(i as usize) {
        Some(row) => *row,
        None => MethodRow {
            class: 0,
            proto: 0,
            name: 0,
        },
    }
}

/// The method of that index. Want of memory is the only error.
#[tactic(auto, unfolding(crate::specs::Texts::method_of))]
pub fn method_at(alloc: Global, dex: &Dex, i: u32) -> Result<MethodRef, Memory>
    ensures { IfOk result (λ m. m ≡ method_of dex.now i) }
{
    let row = method_row_at(dex, i);
    let class = type_at(alloc, dex, row.class)?;
    let name = text_at(alloc, dex, row.name)?;
    let proto = proto_at(alloc, dex, row.proto)?;
    Ok(MethodRef { class, name, proto })
}

/// The same prototype over the same storage.
pub fn proto_copied(proto: &Proto) -> Result<Proto, Memory>
    ensures { IfOk result (λ p. p ≡ proto.now) }
{
    Ok(Proto {
        params: proto.params.copy()?,
        ret: proto.ret.copy()?,
    })
}

/// Puts copies of the names behind the others. After want of memory some of them may stand there.
pub fn add_copies(names: &mut Vec<Name>, more: &[Name]) -> Result<(), Memory>
    ensures { OnOk result (names.new.items ≡ names.old.items ++ more.now) }
{
    for name in more {
        names.push(name.copy()?)?;
    }
    Ok(())
}

/// The same names over the same bytes. Want of memory is the only error.
pub fn names_copied(alloc: Global, names: &[Name]) -> Result<Seq<Name>, Memory>
    ensures { IfOk result (λ ns. ns ≡ names.now) }
{
    let mut copies = Vec::new(alloc);
    add_copies(&mut copies, names)?;
    Ok(Seq::from_vec(copies))
}
