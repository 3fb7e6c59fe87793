ghost use Rattle.std.specs.Prelude.{◌≡◌, ◌≤◌, IfSome};
ghost use Rattle.desk_words.specs.Numbers.{digits, number, positive};

/// The number that the digits spell behind those of `so_far`, where it is not above the limit.
#[tactic(auto, unfolding(crate::specs::Numbers::digits))]
fn digits_of(text: &[u8], limit: u32, so_far: u32) -> Option<u32>
    requires { so_far ≤ limit }
    ensures value { result ≡ digits limit so_far text.now }
    ensures within { IfSome result (λ n. n ≤ limit) }
{
    let mut n = so_far;
    for byte in text {
        if !byte.is_ascii_digit() {
            return None;
        }
        let next = 10 * u64::from(n) + u64::from(*byte - b'0');
        if next > u64::from(limit) {
            return None;
        }
        n = next as u32;
    }
    Some(n)
}

/// The number that a text spells in decimal digits, without sign and without a leading zero unless it is 0, where it
/// is not above the limit. It takes no memory.
#[tactic(auto, unfolding(crate::specs::Numbers::number))]
pub fn number_in(text: &[u8], limit: u32) -> Option<u32>
    ensures value { result ≡ number limit text.now }
    ensures within { IfSome result (λ n. n ≤ limit) }
{
    match text {
        [] => None,
        [b'0', _, ..] => None,
        _ => digits_of(text, limit, 0),
    }
}

/// The same, where it is not 0.
#[tactic(auto, unfolding(crate::specs::Numbers::positive))]
pub fn positive_in(text: &[u8], limit: u32) -> Option<u32>
    ensures value { result ≡ positive limit text.now }
    ensures within { IfSome result (λ n. (1 ≤ n) × (n ≤ limit)) }
{
    let n = number_in(text, limit)?;
    if n == 0 { None } else { Some(n) }
}
