ghost use Rattle.std.specs.Prelude.{◌≡◌};
ghost use Rattle.app_machine.specs.Names.{is_reference, is_void, is_wide, width};

use vet_base::Name;

/// Whether the type is `long` or `double`, a value of which stands in two registers.
#[tactic(auto, unfolding(app_machine::specs::Names::is_wide))]
pub fn is_wide(kind: &Name) -> bool
    ensures { result ≡ is_wide kind.now }
{
    kind.as_bytes() == b"J".as_slice() || kind.as_bytes() == b"D".as_slice()
}

/// Whether the type is a class or an array.
#[tactic(auto, unfolding(app_machine::specs::Names::is_reference))]
pub fn is_reference(kind: &Name) -> bool
    ensures { result ≡ is_reference kind.now }
{
    match kind.as_bytes().first() {
        Some(byte) => *byte == b'L' || *byte == b'[',
        None => false,
    }
}

/// Whether a method of this result has none.
#[tactic(auto, unfolding(app_machine::specs::Names::is_void))]
pub fn is_void(kind: &Name) -> bool
    ensures { result ≡ is_void kind.now }
{
    kind.as_bytes() == b"V".as_slice()
}

/// How many registers hold a value of the type.
pub(crate) fn width(kind: &Name) -> u32
    ensures { result ≡ width kind.now }
{
    if is_wide(kind) { 2 } else { 1 }
}
