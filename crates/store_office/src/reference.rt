ghost use Rattle.std.specs.Prelude.{◌≡◌};
ghost use Rattle.std.specs.List.{list_all};
ghost use Rattle.store_office.specs.Reference.{is_reference, is_reference_byte};

fn is_reference_byte(byte: u8) -> bool
    ensures { result ≡ is_reference_byte byte }
{
    byte.is_ascii_alphanumeric() || byte == b'.' || byte == b'_' || byte == b'-'
}

fn all_of_references(bytes: &[u8]) -> bool
    ensures { result ≡ list_all is_reference_byte bytes.now }
{
    bytes.iter().all(|byte| is_reference_byte(*byte))
}

/// Whether the bytes have the form of a reference: 1 to 64 bytes of `A-Z a-z 0-9 . _ -`.
pub fn is_reference(bytes: &[u8]) -> bool
    ensures { result ≡ is_reference bytes.now }
{
    1 <= bytes.len() && bytes.len() <= 64 && all_of_references(bytes)
}
