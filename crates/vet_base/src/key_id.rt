/// The number of a heap key of an app. 0 is the one key of all elements of arrays and collections.
#[derive(Clone, Copy, Debug, PartialEq, Eq, PartialOrd, Ord, Hash)]
pub struct KeyId(pub u32);
