use std::str::from_utf8;
use vet_base::Name;

/// A name as text; `?` where it is none.
pub fn text_of(name: &Name) -> &str {
    from_utf8(name.as_bytes()).unwrap_or("?")
}
