/// The exit status of the program: 0 accepted, 3 the folder is refused or the desk answered otherwise, 5 a file could
/// not be read, 6 the text could not be printed, 7 want of memory, 10 no answer came. `submit` says when each comes.
#[derive(Clone, Copy, Debug, PartialEq, Eq)]
pub struct Status(pub u8);
