/// Which register operands of an instruction name a pair of neighbouring registers, by their place among its operands.
/// A pair is named by its first register.
#[derive(Clone, Copy, Debug, PartialEq, Eq)]
pub enum Pairs {
    NoPair,
    First,
    Second,
    FirstTwo,
    LastTwo,
    All,
}
