/// The exit status of the program: 0 served, 3 the office file or the lists are refused, 5 one of them could not be
/// read, 6 the text could not be printed, 7 want of memory, 8 the door failed. `serve` says when each comes.
#[derive(Clone, Copy, Debug, PartialEq, Eq)]
pub struct Status(pub u8);

/// All that a desk acts on: the files of its office, what is printed, the cases, the connections and the day.
#[derive(Drop)]
pub struct Outside<F, O, K, D, C> {
    pub files: F,
    pub out: O,
    pub keeper: K,
    pub door: D,
    pub clock: C,
}
