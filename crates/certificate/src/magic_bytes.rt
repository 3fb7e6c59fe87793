ghost use Rattle.std.specs.Prelude.{◌≡◌};
ghost use Rattle.certificate.specs.Cert.{magic};

use cert_rows::Set;

/// The eight bytes with which certificates of the set begin.
#[tactic(auto, unfolding(crate::specs::Cert::magic))]
pub fn magic_of(set: Set) -> &'static [u8]
    ensures { result.now ≡ magic set }
{
    match set {
        Set::Paths => b"VETCERT2".as_slice(),
        Set::Cells => b"VETCELL1".as_slice(),
    }
}
