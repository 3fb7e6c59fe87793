ghost use Rattle.std.specs.Prelude.{◌≡◌};
ghost use Rattle.app_machine.specs.Names.{same_proto};

use crate::Proto;

/// Whether the two have the same parameters and the same result.
pub(super) fn is_same_proto(a: &Proto, b: &Proto) -> bool
    ensures { result ≡ same_proto a.now b.now }
{
    a.params.as_slice() == b.params.as_slice() && a.ret == b.ret
}
