use crate::{Ctx, Node};

/// Where an object was made.
#[derive(Clone, Copy, Debug, PartialEq, Eq, PartialOrd, Ord, Hash)]
pub enum Site {
    /// By an allocation, or as the joined result of a library call.
    At(Node),
    /// By the library, as a parameter of an event: its context and its position, the receiver being 0.
    Param(Ctx, u32),
    Component(u32),
    /// A shared object of the lists.
    Shared(u32),
    /// By an allocation in a method, at a pc, in whatever context.
    Made(u32, u32),
}
