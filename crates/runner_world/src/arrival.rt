/// A label that came to a sink of this category at the instruction.
#[derive(Clone, Copy, Debug, PartialEq, Eq)]
pub struct Arrival {
    pub label: u8,
    pub sink: u8,
    pub method: u32,
    pub pc: u32,
}
