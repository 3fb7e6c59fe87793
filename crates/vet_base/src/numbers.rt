ghost use Rattle.std.specs.Prelude.{◌≡◌, ◌≤◌, length, IfSome};
ghost use Rattle.vet_base.specs.Numbers.{u2, u4, uleb, sleb, groups};

/// Two bytes from `at` on, the low one first, and the offset behind them. `None` exactly where fewer than two
/// bytes stand there.
pub fn read_u2(bytes: &[u8], at: usize) -> Option<(u16, usize)>
    ensures value { result ≡ u2 bytes.now at }
    ensures within { IfSome result (λ x. x.1 ≤ length bytes.now) }
{
    if at >= bytes.len() || bytes.len() - at < 2 {
        return None;
    }
    Some((u16::from_le_bytes([bytes[at], bytes[at + 1]]), at + 2))
}

/// Four bytes from `at` on, the low one first, and the offset behind them. `None` exactly where fewer than four
/// bytes stand there.
pub fn read_u4(bytes: &[u8], at: usize) -> Option<(u32, usize)>
    ensures value { result ≡ u4 bytes.now at }
    ensures within { IfSome result (λ x. x.1 ≤ length bytes.now) }
{
    if at >= bytes.len() || bytes.len() - at < 4 {
        return None;
    }
    Some((
        u32::from_le_bytes([bytes[at], bytes[at + 1], bytes[at + 2], bytes[at + 3]]),
        at + 4,
    ))
}

/// The groups of seven bits from the first byte on, and how many bytes they take. At most `left` bytes are read.
#[tactic(auto, unfolding(crate::specs::Numbers::groups))]
fn groups_of(bytes: &[u8], left: u8, signed: bool) -> Option<(u32, usize)>
    ensures value { result ≡ groups signed left bytes.now }
    ensures within { IfSome result (λ g. g.1 ≤ length bytes.now) }
{
    if left == 0 {
        return None;
    }
    match bytes {
        [] => None,
        [b, rest @ ..] => {
            if *b < 128 {
                let last = if signed && *b >= 64 {
                    u32::from(*b) + 0xFFFF_FF80
                } else {
                    u32::from(*b)
                };
                Some((last, 1))
            } else {
                let (high, len) = groups_of(rest, left - 1, signed)?;
                let value = (u64::from(*b % 128) + 128 * u64::from(high)) % 0x1_0000_0000;
                Some((value as u32, len + 1))
            }
        }
    }
}

/// An unsigned LEB128 number of at most five bytes at 32 bits, and the offset behind it (Android documentation,
/// Dalvik executable format, LEB128). `None` exactly where the bytes end before a byte without its high bit, or the
/// fifth byte has its high bit set. Bits above the 32nd are dropped.
#[tactic(auto, unfolding(crate::specs::Numbers::groups))]
pub fn read_uleb(bytes: &[u8], at: usize) -> Option<(u32, usize)>
    ensures value { result ≡ uleb bytes.now at }
    ensures within { IfSome result (λ x. x.1 ≤ length bytes.now) }
{
    if at >= bytes.len() {
        return None;
    }
    let (value, len) = groups_of(&bytes[at..], 5, false)?;
    Some((value, at + len))
}

/// A signed LEB128 number: as `read_uleb`, but the highest of the seven bits of the last byte extends as the sign.
#[tactic(auto, unfolding(crate::specs::Numbers::groups))]
pub fn read_sleb(bytes: &[u8], at: usize) -> Option<(i32, usize)>
    ensures value { result ≡ sleb bytes.now at }
    ensures within { IfSome result (λ x. x.1 ≤ length bytes.now) }
{
    if at >= bytes.len() {
        return None;
    }
    let (value, len) = groups_of(&bytes[at..], 5, true)?;
    Some((value.cast_signed(), at + len))
}
