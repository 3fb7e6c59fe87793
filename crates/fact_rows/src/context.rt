/// Why a method runs: an event, the last call instruction where the event's method made the call, or
/// else the last two.
#[derive(Clone, Copy, Debug, PartialEq, Eq, PartialOrd, Ord, Hash)]
pub enum Ctx {
    /// Component, number of its event.
    Row(u32, u32),
    /// Component, callback row.
    Callback(u32, u32),
    /// Component, click.
    Click(u32, u32),
    /// Callback row, on a handed object.
    Handed(u32),
    /// Component whose class is initialised.
    Init(u32),
    /// Method, pc of the call.
    Call(u32, u32),
    /// Method, pc of the last call, and method, pc of the call before it.
    Call2(u32, u32, u32, u32),
}

/// A method as it runs in a context.
#[derive(Clone, Copy, Debug, PartialEq, Eq, PartialOrd, Ord, Hash)]
pub struct Activation {
    pub ctx: Ctx,
    pub method: u32,
}

/// A place in an activation.
#[derive(Clone, Copy, Debug, PartialEq, Eq, PartialOrd, Ord, Hash)]
pub struct Node {
    pub by: Activation,
    pub pc: u32,
}
