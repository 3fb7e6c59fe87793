use vet_base::Stop;

/// The first fault of a method's code. A pc counts units from the method's first.
#[derive(Clone, Copy, Debug, PartialEq, Eq)]
pub enum CodeFault {
    /// The opcode of the instruction at this pc is not used.
    Opcode(u32),
    /// The instruction or payload at this pc ends past the units.
    Cut(u32),
    /// A branch or a switch at this pc goes to where no instruction starts.
    Target(u32),
    /// A register of the instruction at this pc, or the second of a pair, is not one of the method's, or it has more
    /// than five arguments outside a range. At pc 0 also: the method has fewer registers than arguments.
    Register(u32),
    /// The payload that the instruction at this pc names is no payload of its kind.
    Payload(u32),
    /// The try of this number covers units behind the last, or has a handler where no instruction starts.
    Tries(u32),
    /// Control goes on from this pc to the end of the units or into a payload. At pc 0 also: there are no units.
    FallsOff(u32),
    /// The string, type, field or method that the instruction at this pc names is not there.
    Index(u32),
    /// Memory ran out.
    Memory,
}

pub(crate) type Halt = Stop<CodeFault>;
