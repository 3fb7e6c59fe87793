/// A name as a key.
#[derive(Clone, Copy, Drop, PartialEq, Eq, Hash)]
pub struct NameKey<'a> {
    pub name: &'a [u8],
}
