/// A file of an app or of an office has at most so many bytes.
pub const FILE_LIMIT: u64 = 16_777_216;
