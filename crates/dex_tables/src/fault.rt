use vet_base::Stop;

/// A field of the header with a refused value.
#[derive(Clone, Copy, Debug, PartialEq, Eq)]
pub enum Field {
    FileSize,
    HeaderSize,
    EndianTag,
}

/// Where an index stands that is not below the size of its table.
#[derive(Clone, Copy, Debug, PartialEq, Eq)]
pub enum Table {
    TypeIds,
    ProtoIds,
    FieldIds,
    MethodIds,
    ClassDefs,
    ClassData,
    Handlers,
    Tries,
}

/// What there is too much of.
#[derive(Clone, Copy, Debug, PartialEq, Eq)]
pub enum Limit {
    Names,
    TypeLists,
    ClassDefs,
    ClassData,
    Units,
    Tries,
}

/// What is wrong with the bytes: the first test that fails. It holds no memory.
#[derive(Clone, Copy, Debug, PartialEq, Eq)]
pub enum Fault {
    Magic,
    Header(Field),
    Outside(u32),
    Index(Table, u32),
    Text(u32),
    Leb(u32),
    TooMany(Limit),
}

/// The first fault of the bytes, or want of memory.
pub type ReadError = Stop<Fault>;
