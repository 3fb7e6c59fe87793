ghost use Rattle.std.specs.Prelude.{◌≡◌, ◌≤◌, ◌<◌, ◌^◌, slice_index};
ghost use Rattle.dex_code.specs.Units.{int_at, long_at as long_in, wide_at as wide_in, signed, pc_of, target_of};

/// The unit at a place, 0 behind the last.
pub fn unit_at(units: &[u16], at: usize) -> u16
    ensures { result ≡ slice_index units.now at }
{
    if at < units.len() { units[at] } else { 0 }
}

/// The number in two units, the low one first.
#[tactic(auto, unfolding(crate::specs::Units::long_at))]
pub fn long_at(units: &[u16], at: usize) -> u32
    requires { at < 2 ^ 41 }
    ensures { result ≡ long_in units.now at }
{
    u32::from(unit_at(units, at)) + 65536 * u32::from(unit_at(units, at + 1))
}

/// The signed number in two units.
#[tactic(auto, unfolding(crate::specs::Units::int_at))]
pub fn int32_at(units: &[u16], at: usize) -> i32
    requires { at < 2 ^ 40 }
    ensures { result ≡ int_at units.now at }
{
    long_at(units, at).cast_signed()
}

/// The signed number in four units.
#[tactic(auto, unfolding(crate::specs::Units::wide_at))]
pub fn int64_at(units: &[u16], at: usize) -> i64
    requires { at < 2 ^ 40 }
    ensures { result ≡ wide_in units.now at }
{
    let low = u64::from(long_at(units, at));
    let high = u64::from(long_at(units, at + 2));
    (low + 0x1_0000_0000 * high).cast_signed()
}

/// A number with a sign, of which `half` is the weight of the sign.
#[tactic(auto, unfolding(crate::specs::Units::signed))]
pub fn with_sign(half: u16, n: u16) -> i32
    requires { half ≤ 32768 }
    ensures { result ≡ signed half n }
{
    if n < half {
        i32::from(n)
    } else {
        i32::from(n) - 2 * i32::from(half)
    }
}

/// The pc of a number, which is none of a method's where the number is none of a `u32`.
#[tactic(auto, unfolding(crate::specs::Units::pc_of))]
fn pc_from(number: i64) -> u32
    ensures { result ≡ pc_of number }
{
    u32::try_from(number).unwrap_or(u32::MAX)
}

/// The pc so far from another.
#[tactic(auto, unfolding(crate::specs::Units::target_of))]
pub fn target_from(pc: u32, distance: i32) -> u32
    ensures { result ≡ target_of pc distance }
{
    pc_from(i64::from(pc) + i64::from(distance))
}
