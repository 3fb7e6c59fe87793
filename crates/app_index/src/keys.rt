//! Under which keys rows and classes of the lists are numbered.
ghost use Rattle.std.specs.Prelude.{◌≡◌};

use app_machine::Proto;
use vet_base::Name;

/// How a call names a method: its class, name, parameters and result, and whether it is static.
#[derive(Clone, Copy, Drop, PartialEq, Eq, Hash)]
pub struct MethodKey<'a> {
    pub class: &'a [u8],
    pub name: &'a [u8],
    pub params: &'a [Name],
    pub ret: &'a [u8],
    pub is_static: bool,
}

/// The name of a class.
#[derive(Clone, Copy, Drop, PartialEq, Eq, Hash)]
pub struct ClassKey<'a> {
    pub name: &'a [u8],
}

/// The class, name and type of a field.
#[derive(Clone, Copy, Drop, PartialEq, Eq, Hash)]
pub struct FieldKey<'a> {
    pub class: &'a [u8],
    pub name: &'a [u8],
    pub kind: &'a [u8],
}

/// The key of the field.
pub fn field_key<'a>(class: &'a Name, name: &'a Name, kind: &'a Name) -> FieldKey<'a>
    ensures class { result.class.now ≡ class.now }
    ensures name { result.name.now ≡ name.now }
    ensures kind { result.kind.now ≡ kind.now }
{
    FieldKey {
        class: class.as_bytes(),
        name: name.as_bytes(),
        kind: kind.as_bytes(),
    }
}

/// The key of the method.
pub fn method_key<'a>(
    class: &'a Name,
    name: &'a Name,
    proto: &'a Proto,
    is_static: bool,
) -> MethodKey<'a>
    ensures class { result.class.now ≡ class.now }
    ensures name { result.name.now ≡ name.now }
    ensures params { result.params.now ≡ proto.now.params }
    ensures ret { result.ret.now ≡ proto.now.ret }
    ensures is_static { result.is_static ≡ is_static }
{
    MethodKey {
        class: class.as_bytes(),
        name: name.as_bytes(),
        params: proto.params.as_slice(),
        ret: proto.ret.as_bytes(),
        is_static,
    }
}
