//! Paths.
ghost use Rattle.std.specs.Prelude.{◌≡◌, ◌++◌, OnOk};
ghost use Rattle.access_path.specs.Order.{numbers_of_path};
ghost use Rattle.cert_rows.specs.Fitting.{AreSmall};
ghost use Rattle.cert_rows.specs.Parts.{keys_from, path_from};
ghost use Rattle.cert_rows.specs.Reading.{Reads};
ghost use Rattle.cert_rows.specs.Spelling.{path_bytes};

use crate::RowFault;
use crate::numbers::{byte_from, put_u4, u4_from};
use access_path::{MOST_KEYS, Path, cut};
use vet_base::{KeyId, Memory};

/// A path of so many keys.
#[tactic(auto, unfolding(crate::specs::Parts::keys_from), using(vet_base::proofs::Scripts::run_bind))]
fn keys_from(is_open: bool, count: u8, bytes: &[u8]) -> Result<(Path, &[u8]), RowFault>
    ensures { Reads (λ x. (x.0, x.1.now)) result (keys_from is_open count bytes.now) }
{
    if count == 0 {
        return match Path::from_keys(is_open, &[]) {
            Some(path) => Ok((path, bytes)),
            None => Err(RowFault::Bad),
        };
    }
    let (key, rest) = u4_from(bytes)?;
    let (others, rest) = keys_from(is_open, count - 1, rest)?;
    Ok((cut(KeyId(key), &others), rest))
}

#[tactic(auto, unfolding(crate::specs::Parts::path_from), using(vet_base::proofs::Scripts::run_bind))]
pub fn path_from(bytes: &[u8]) -> Result<(Path, &[u8]), RowFault>
    ensures { Reads (λ x. (x.0, x.1.now)) result (path_from bytes.now) }
{
    let (first, rest) = byte_from(bytes)?;
    let count = first % 128;
    if count as usize > MOST_KEYS {
        return Err(RowFault::Bad);
    }
    keys_from(first >= 128, count, rest)
}

#[tactic(auto, unfolding(crate::specs::Spelling::path_bytes))]
pub fn put_path(out: &mut Vec<u8>, path: Path) -> Result<(), Memory>
    ensures bytes { OnOk result (out.new.items ≡ out.old.items ++ path_bytes path) }
    ensures fits { OnOk result (AreSmall (numbers_of_path path)) }
{
    let first = if path.is_open() {
        128 + path.len()
    } else {
        path.len()
    };
    out.push(first as u8)?;
    for key in path.keys() {
        put_u4(out, key.0)?;
    }
    Ok(())
}
