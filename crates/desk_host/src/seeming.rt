//! How long a request seems to be. The desk's reader decides what it is; this only tells when it is worth reading.

/// The most bytes of a head.
const HEAD_LIMIT: usize = 16_384;

/// The most bytes of a body.
const BODY_LIMIT: usize = 67_108_864;

const LENGTH_FIELD: &[u8] = b"content-length:";

/// Behind the first empty line that ends at this place or later.
fn head_end(bytes: &[u8], from: usize) -> Option<usize> {
    for end in from..bytes.len() {
        let front = &bytes[..end + 1];
        if front.ends_with(b"\n\n".as_slice()) || front.ends_with(b"\n\r\n".as_slice()) {
            return Some(end + 1);
        }
    }
    None
}

/// The number of the digits among these bytes.
fn number_in(value: &[u8]) -> usize {
    let mut number = 0usize;
    for byte in value {
        if byte.is_ascii_digit() {
            number = number
                .saturating_mul(10)
                .saturating_add(usize::from(*byte - b'0'));
        }
    }
    number
}

/// The length that a line announces.
fn length_in(line: &[u8]) -> Option<usize> {
    let name = line.get(..LENGTH_FIELD.len())?;
    let value = line.get(LENGTH_FIELD.len()..)?;
    if name.eq_ignore_ascii_case(LENGTH_FIELD) {
        Some(number_in(value))
    } else {
        None
    }
}

/// The length of the body that a head announces, and 0 where it announces none or more than the desk takes.
fn announced(head: &[u8]) -> usize {
    for line in head.split(|byte| *byte == b'\n') {
        if let Some(length) = length_in(line) {
            return if length <= BODY_LIMIT { length } else { 0 };
        }
    }
    0
}

/// How many bytes a request seems to have of which these came, `seen` of them before: its head and the body that it
/// announces. None while its head may still end.
pub(crate) fn seeming_length(bytes: &[u8], seen: usize) -> Option<usize> {
    match head_end(bytes, seen) {
        Some(end) => Some(announced(&bytes[..end.min(bytes.len())]).saturating_add(end)),
        None if bytes.len() < HEAD_LIMIT => None,
        None => Some(HEAD_LIMIT),
    }
}
