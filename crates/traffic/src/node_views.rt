use crate::world::RowList;

/// A link into a node: its number, its capacity, whether it is green, and its buffer.
#[derive(Drop)]
pub struct InLink {
    pub link: u32,
    pub capacity: u32,
    pub green: bool,
    pub rows: RowList,
}

/// A link out of a node: its taken places, its storage, and its free seconds.
#[derive(Clone, Copy, Debug, PartialEq, Eq)]
pub struct OutLink {
    pub taken: u64,
    pub storage: u32,
    pub seconds: u32,
}
