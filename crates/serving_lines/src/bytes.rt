use std::alloc::{AllocError, Global};

/// The value of a hexadecimal digit.
fn digit(byte: u8) -> u8 {
    match byte {
        b'0'..=b'9' => byte - b'0',
        b'a'..=b'f' => byte - b'a' + 10,
        _ => 0,
    }
}

/// Puts the byte of two digits, and what stands behind them.
fn push_code(bytes: &mut Vec<u8>, text: &[u8]) -> Result<(), AllocError> {
    if text.len() < 2 {
        return Ok(());
    }
    bytes.push((digit(text[0]) << 4) | digit(text[1]))?;
    bytes.extend_from_slice(&text[2..])
}

/// Puts a text so many times, where `run` is `N*TEXT`.
fn push_times(bytes: &mut Vec<u8>, run: &str) -> Result<(), AllocError> {
    let (count, text) = run.split_once("*").unwrap_or(("0", ""));
    for _ in 0..count.parse::<u32>().unwrap_or(0) {
        bytes.extend_from_slice(text.as_bytes())?;
    }
    Ok(())
}

/// Puts a run, and what stands behind it.
fn push_run(bytes: &mut Vec<u8>, text: &str) -> Result<(), AllocError> {
    let (run, behind) = text.split_once("}").unwrap_or((text, ""));
    push_times(bytes, run)?;
    bytes.extend_from_slice(behind.as_bytes())
}

/// Puts a byte, and what stands behind it.
fn push_with(bytes: &mut Vec<u8>, byte: u8, behind: &str) -> Result<(), AllocError> {
    bytes.push(byte)?;
    bytes.extend_from_slice(behind.as_bytes())
}

/// Puts what stands behind a backslash.
fn push_escape(bytes: &mut Vec<u8>, text: &str) -> Result<(), AllocError> {
    if let Some(behind) = text.strip_prefix("r") {
        push_with(bytes, b'\r', behind)
    } else if let Some(behind) = text.strip_prefix("n") {
        push_with(bytes, b'\n', behind)
    } else if let Some(behind) = text.strip_prefix("x") {
        push_code(bytes, behind.as_bytes())
    } else if let Some(behind) = text.strip_prefix("{") {
        push_run(bytes, behind)
    } else {
        Ok(())
    }
}

/// The bytes of a text in which `\r` stands for CR, `\n` for LF, `\xNN` for the byte of this number in hexadecimal
/// digits, and `\{N*TEXT}` for a text N times.
pub fn bytes_of(alloc: Global, text: &str) -> Result<Vec<u8>, AllocError> {
    let mut bytes = Vec::new(alloc);
    let mut is_first = true;
    for part in text.split("\\") {
        if is_first {
            bytes.extend_from_slice(part.as_bytes())?;
            is_first = false;
        } else {
            push_escape(&mut bytes, part)?;
        }
    }
    Ok(bytes)
}

/// The hexadecimal digit of a number below 16.
fn hex(number: u8) -> char {
    match number {
        0..=9 => (b'0' + number) as char,
        10..=15 => (b'a' - 10 + number) as char,
        _ => '?',
    }
}

fn push_shown(text: &mut String, byte: u8) -> Result<(), AllocError> {
    match byte {
        b'\r' => text.push_str("\\r"),
        b'\n' => text.push_str("\\n"),
        b'\\' => text.push_str("\\x5c"),
        32..=126 => text.push(byte as char),
        _ => {
            text.push_str("\\x")?;
            text.push(hex(byte >> 4))?;
            text.push(hex(byte & 15))
        }
    }
}

/// The text that stands for bytes.
pub fn shown(alloc: Global, bytes: &[u8]) -> Result<String, AllocError> {
    let mut text = String::new(alloc);
    for byte in bytes {
        push_shown(&mut text, *byte)?;
    }
    Ok(text)
}
