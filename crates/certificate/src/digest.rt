//! What a certificate is about: the digest of an app's files.
ghost use Rattle.std.specs.Prelude.{◌≡◌, ◌<◌, ◌++◌, ◌∷◌, ℕ, List, length};
ghost use Rattle.std.specs.List.{flat_map, AllByRecursion};
ghost use Rattle.sha2.specs.Hashers.{Holds256};
ghost use Rattle.sha2.specs.Sha256.{sha256};
ghost use Rattle.certificate.specs.Digests.{IsShort, part_bytes, parts_bytes};

use sha2::{Digest, Sha256};
use vet_base::Shared;

fn add(hasher: &mut Sha256, part: &[u8])
    requires { IsShort part.now }
    ensures { (m : List ℕ) → Holds256 hasher.old m → Holds256 hasher.new (m ++ part_bytes part.now) }
{
    let size = (part.len() as u32).to_le_bytes();
    hasher.update(&size);
    hasher.update(part);
}

fn add_all(hasher: &mut Sha256, parts: &[Shared<u8>])
    requires { AllByRecursion IsShort parts.now }
    ensures { (m : List ℕ) → Holds256 hasher.old m → Holds256 hasher.new (m ++ parts_bytes parts.now) }
{
    match parts {
        [] => {}
        [part, others @ ..] => {
            add(hasher, part.as_slice());
            add_all(hasher, others);
        }
    }
}

/// The SHA-256 of the bytes of manifest, layouts, declaration, lists and the DEX files in their
/// order, each with its length in front as four bytes, the low one first (FIPS 180-4).
pub fn digest_of(
    manifest: &[u8],
    layouts: &[u8],
    declaration: &[u8],
    lists: &[u8],
    dex: &[Shared<u8>],
) -> [u8; 32]
    requires manifest { IsShort manifest.now }
    requires layouts { IsShort layouts.now }
    requires declaration { IsShort declaration.now }
    requires lists { IsShort lists.now }
    requires dex { AllByRecursion IsShort dex.now }
    ensures { result ≡ sha256 (parts_bytes (manifest.now ∷ layouts.now ∷ declaration.now ∷ lists.now ∷ dex.now)) }
{
    let mut hasher = Sha256::new();
    add(&mut hasher, manifest);
    add(&mut hasher, layouts);
    add(&mut hasher, declaration);
    add(&mut hasher, lists);
    add_all(&mut hasher, dex);
    hasher.finalize()
}
