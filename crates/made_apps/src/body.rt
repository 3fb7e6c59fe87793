/// What a drawn method does with its argument.
#[derive(Clone, Copy)]
pub enum Body {
    /// It returns it.
    Returned,
    /// It passes it on to the method of that number, and returns what that one returns.
    PassedOn(u32),
    /// It puts it into a new array, and returns the element.
    ThroughArray,
    /// It stores it in the static field, and returns null.
    Stored,
}
