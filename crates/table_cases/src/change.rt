//! What is changed in a certificate.
use std::alloc::{AllocError, Global};

/// The bytes after a change: `cut N` keeps the first N, `set AT BYTE` changes the one at that offset, and
/// `hex DIGITS` gives all of them. Nothing where it is none of these.
pub fn changed(alloc: Global, whole: &[u8], change: &str) -> Result<Option<Vec<u8>>, AllocError> {
    let (how, what) = change.split_once(" ").unwrap_or((change, ""));
    match how {
        "cut" => cut(alloc, whole, what),
        "set" => set(alloc, whole, what),
        "hex" => match hex::decode(alloc, what) {
            Ok(bytes) => Ok(Some(bytes)),
            Err(_) => Ok(None),
        },
        _ => Ok(None),
    }
}

fn cut(alloc: Global, whole: &[u8], what: &str) -> Result<Option<Vec<u8>>, AllocError> {
    let Ok(n) = what.parse::<usize>() else {
        return Ok(None);
    };
    match whole.get(..n) {
        Some(front) => Ok(Some(front.to_vec(alloc)?)),
        None => Ok(None),
    }
}

fn set(alloc: Global, whole: &[u8], what: &str) -> Result<Option<Vec<u8>>, AllocError> {
    let (at, byte) = what.split_once(" ").unwrap_or((what, ""));
    let (Ok(at), Ok(byte)) = (at.parse::<usize>(), byte.parse::<u8>()) else {
        return Ok(None);
    };
    let mut bytes = whole.to_vec(alloc)?;
    match bytes.get_mut(at) {
        Some(one) => *one = byte,
        None => return Ok(None),
    }
    Ok(Some(bytes))
}
