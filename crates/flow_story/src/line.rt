use fact_rows::Row;

/// The numbers of the lines from which a line follows, in the order in which its rule names their rows.
#[derive(Clone, Copy)]
pub enum Numbers {
    None,
    One(u32),
    Two(u32, u32),
    Three(u32, u32, u32),
    Four(u32, u32, u32, u32),
}

/// A row, and how it follows. Lines are numbered from 1; a start has rule 0 and no premises.
#[derive(Clone, Copy)]
pub struct StoryLine {
    pub rule: u8,
    pub premises: Numbers,
    pub row: Row,
}
