ghost use Rattle.std.specs.Prelude.{◌≡◌, ◌≤◌, ◌<◌, ◌^◌, IfOk};
ghost use Rattle.dex_code.specs.Insns.{int_pairs_at, ints_at};

use crate::units::int32_at;
use std::alloc::{AllocError, Global};

/// So many signed numbers of two units each.

pub fn ints_from(
    alloc: Global,
    units: &[u16],
    at: usize,
    count: u16,
) -> Result<Vec<i32>, AllocError>
    requires { at < 2 ^ 33 }
    ensures { IfOk result (λ v. v.items ≡ ints_at units.now at count) }
{
    let mut ints = Vec::new(alloc);
    for i in 0..count {
        ints.push(int32_at(units, at + 2 * i as usize))?;
    }
    Ok(ints)
}

/// So many pairs of signed numbers, the first parts from one place on and the second parts from another.

pub fn int_pairs_from(
    alloc: Global,
    units: &[u16],
    keys: usize,
    values: usize,
    count: u16,
) -> Result<Vec<(i32, i32)>, AllocError>
    requires keys { keys < 2 ^ 33 }
    requires values { values < 2 ^ 33 }
    ensures { IfOk result (λ v. v.items ≡ int_pairs_at units.now keys values count) }
{
    let mut pairs = Vec::new(alloc);
    for i in 0..count {
        let key = int32_at(units, keys + 2 * i as usize);
        let value = int32_at(units, values + 2 * i as usize);
        pairs.push((key, value))?;
    }
    Ok(pairs)
}
