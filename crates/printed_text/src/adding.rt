//! What is added at the end of a text.

ghost use Rattle.std.specs.Prelude.{◌≡◌, ◌<◌, ◌++◌, OnOk};
ghost use Rattle.std.specs.Fmt.{decimal};
ghost use Rattle.printed_text.specs.Printed.{hexadecimal, is_plain, escaped_byte, escaped};

use std::alloc::Global;
use vet_base::Memory;

#[tactic(auto, unfolding(crate::specs::Printed::hexadecimal))]
fn hexadecimal_digit(n: u8) -> u8
    requires { n < 16 }
    ensures { result ≡ hexadecimal n }
{
    if n < 10 { b'0' + n } else { b'a' - 10 + n }
}

#[tactic(auto, unfolding(crate::specs::Printed::is_plain))]
fn is_plain_byte(byte: u8) -> bool
    ensures { result ≡ is_plain byte }
{
    byte >= 0x21 && byte <= 0x7E && byte != b'\\'
}

/// Adds bytes as they are.
pub fn put(text: &mut Vec<u8>, bytes: &[u8]) -> Result<(), Memory>
    ensures { OnOk result (text.new.items ≡ text.old.items ++ bytes.now) }
{
    text.extend_from_slice(bytes)?;
    Ok(())
}

#[tactic(auto, unfolding(crate::specs::Printed::escaped_byte))]
fn put_escaped_byte(text: &mut Vec<u8>, byte: u8) -> Result<(), Memory>
    ensures { OnOk result (text.new.items ≡ text.old.items ++ escaped_byte byte) }
{
    if is_plain_byte(byte) {
        put(text, &[byte])
    } else {
        let high = hexadecimal_digit(byte / 16);
        let low = hexadecimal_digit(byte % 16);
        put(text, &[b'\\', b'x', high, low])
    }
}

/// Adds a name at the end: a byte that is no visible ASCII, and the backslash, as `\x` and two hexadecimal digits.
/// After want of memory a part of it may be there.
#[tactic(auto, unfolding(crate::specs::Printed::escaped))]
pub fn put_name(text: &mut Vec<u8>, name: &[u8]) -> Result<(), Memory>
    ensures { OnOk result (text.new.items ≡ text.old.items ++ escaped name.now) }
{
    for byte in name {
        put_escaped_byte(text, *byte)?;
    }
    Ok(())
}

/// Adds a number in decimal digits.
pub fn put_number(alloc: Global, text: &mut Vec<u8>, n: usize) -> Result<(), Memory>
    ensures { OnOk result (text.new.items ≡ text.old.items ++ decimal n) }
{
    let digits = format!(in alloc; "{n}")?;
    put(text, digits.as_bytes())
}
