ghost use Rattle.std.specs.Prelude.{◌≡◌, ◌≤◌, ◌<◌, take, length, MatchOption, None};
ghost use Rattle.desk_http.specs.Heads.{ends_empty_line, HasNoEnd, IsHeadEnd};

/// Whether the bytes end with an empty line.
#[tactic(auto, unfolding(crate::specs::Heads::ends_empty_line))]
fn ends_empty_line(bytes: &[u8]) -> bool
    ensures { result ≡ ends_empty_line bytes.now }
{
    bytes.ends_with(b"\n\n".as_slice()) || bytes.ends_with(b"\n\r\n".as_slice())
}

/// Where the head ends, of which it is known that it does not among the first `seen` bytes.
pub fn head_end(bytes: &[u8], seen: usize) -> Option<usize>
    requires within { seen ≤ length bytes.now }
    requires not_before { HasNoEnd bytes.now seen }
    ensures { MatchOption result (HasNoEnd bytes.now (length bytes.now)) (IsHeadEnd bytes.now) }
{
    for end in seen..bytes.len() {
        if ends_empty_line(&bytes[..end + 1]) {
            return Some(end + 1);
        }
    }
    None
}
