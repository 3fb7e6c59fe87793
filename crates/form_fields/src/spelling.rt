//! How the texts of the forms are spelled.
ghost use Rattle.std.specs.Prelude.{◌≡◌};
ghost use Rattle.form_fields.specs.Spelling.{fits, is_short, is_class, is_prefix, is_category, are_category_bytes};
ghost use Rattle.form_fields.specs.Spelling.{is_category_byte, is_token, are_visible, is_visible};
ghost use Rattle.store_office.specs.Reference.{is_reference};

use store_office::is_reference;

/// The spellings of a text.
#[derive(Clone, Copy, Debug, PartialEq, Eq)]
pub enum Spelling {
    /// Anything.
    Any,
    /// 1 to 255 bytes.
    Text,
    /// The descriptor of a class, `L..;`, of 3 to 255 bytes.
    Class,
    /// The beginning of such a descriptor: `L` and more, of 1 to 255 bytes.
    Prefix,
    /// 1 to 255 of `a` to `z`, `0` to `9` and `_`.
    Category,
    /// 1 to 64 of `A` to `Z`, `a` to `z`, `0` to `9`, `.`, `_` and `-`.
    Reference,
    /// 8 to 128 visible ASCII characters.
    Token,
}

impl Spelling {
    /// Whether the text is spelled so.
    #[tactic(auto, unfolding(crate::specs::Spelling::fits))]
    pub fn fits(self, text: &[u8]) -> bool
        ensures { result ≡ fits self text.now }
    {
        match self {
            Spelling::Any => true,
            Spelling::Text => is_short(text),
            Spelling::Class => is_class(text),
            Spelling::Prefix => is_prefix(text),
            Spelling::Category => is_category(text),
            Spelling::Reference => is_reference(text),
            Spelling::Token => is_token(text),
        }
    }
}

#[tactic(auto, unfolding(crate::specs::Spelling::is_short))]
fn is_short(text: &[u8]) -> bool
    ensures { result ≡ is_short text.now }
{
    1 <= text.len() && text.len() <= 255
}

#[tactic(auto, unfolding(crate::specs::Spelling::is_class))]
fn is_class(text: &[u8]) -> bool
    ensures { result ≡ is_class text.now }
{
    let size = text.len();
    3 <= size && size <= 255 && text[0] == b'L' && text[size - 1] == b';'
}

#[tactic(auto, unfolding(crate::specs::Spelling::is_prefix))]
fn is_prefix(text: &[u8]) -> bool
    ensures { result ≡ is_prefix text.now }
{
    1 <= text.len() && text.len() <= 255 && text[0] == b'L'
}

#[tactic(auto, unfolding(crate::specs::Spelling::is_category))]
fn is_category(text: &[u8]) -> bool
    ensures { result ≡ is_category text.now }
{
    is_short(text) && are_category_bytes(text)
}

#[tactic(auto, unfolding(crate::specs::Spelling::are_category_bytes))]
fn are_category_bytes(text: &[u8]) -> bool
    ensures { result ≡ are_category_bytes text.now }
{
    text.iter().all(|byte| is_category_byte(*byte))
}

#[tactic(auto, unfolding(crate::specs::Spelling::is_category_byte))]
fn is_category_byte(byte: u8) -> bool
    ensures { result ≡ is_category_byte byte }
{
    byte.is_ascii_lowercase() || byte.is_ascii_digit() || byte == b'_'
}

#[tactic(auto, unfolding(crate::specs::Spelling::is_token))]
fn is_token(text: &[u8]) -> bool
    ensures { result ≡ is_token text.now }
{
    8 <= text.len() && text.len() <= 128 && are_visible(text)
}

#[tactic(auto, unfolding(crate::specs::Spelling::are_visible))]
fn are_visible(text: &[u8]) -> bool
    ensures { result ≡ are_visible text.now }
{
    text.iter().all(|byte| is_visible(*byte))
}

#[tactic(auto, unfolding(crate::specs::Spelling::is_visible))]
fn is_visible(byte: u8) -> bool
    ensures { result ≡ is_visible byte }
{
    byte.is_ascii_graphic()
}
