//! The packages of classes.

ghost use Rattle.std.specs.Prelude.{◌≡◌};
ghost use Rattle.device_causes.specs.Hidden.{package_of};

/// The bytes up to the last `/`, which name the package of a class.
#[tactic(auto, using(crate::proofs::Slashes::none_begins, crate::proofs::Slashes::none_on, crate::proofs::Slashes::none_found, crate::proofs::Slashes::none_done))]
pub fn package_of(class: &[u8]) -> &[u8]
    ensures { result.now ≡ package_of class.now }
{
    let mut end = class.len();
    while end > 0 {
        if class[end - 1] == b'/' {
            return &class[..end];
        }
        end -= 1;
    }
    &class[..0]
}
