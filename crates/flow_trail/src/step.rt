use flow_story::Numbers;

/// How a row came: the number of its rule and those of the steps from which it follows, as a line of a
/// story has them. The row is the one at the place.
#[derive(Clone, Copy)]
pub struct Step {
    pub rule: u8,
    pub premises: Numbers,
    pub place: u32,
}
