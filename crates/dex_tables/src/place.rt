/// Where the next item stands, and the running total behind the items before it.
#[derive(Clone, Copy)]
pub struct Place {
    pub at: u32,
    pub total: u32,
}

/// How many rows each table has that others index.
#[derive(Clone, Copy)]
pub struct Sizes {
    pub strings: u32,
    pub types: u32,
    pub protos: u32,
    pub fields: u32,
    pub methods: u32,
}

/// How many members of classes, code units, and try items with their handlers and pairs were read so far.
#[derive(Clone, Copy)]
pub struct Totals {
    pub members: u32,
    pub units: u32,
    pub tries: u32,
}
