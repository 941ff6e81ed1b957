//! The map: what it says of each chunk, and how its sectors are read and written.

pub mod entries;
mod pages;

pub use entries::read_entry;
pub use pages::{Map, page_of};

/// What the map or a record says of one chunk.
#[derive(Clone, Copy, PartialEq, Eq, Drop)]
pub struct Entry {
    /// 0 for none, and p + 1 for storage chunk p.
    pub storage: u32,
    /// A block that is not local reads as zeros, and not from the base.
    pub zeros: bool,
    /// Bit i is set where the chunk's block i is local.
    pub mask: u64,
}

/// The numbers of an image by which its entries and records are judged.
#[derive(Clone, Copy, PartialEq, Eq, Drop)]
pub struct Shape2 {
    /// The chunks of the guest's disk.
    pub chunks: u32,
    /// The storage chunks of the store.
    pub storage: u32,
    /// The blocks of the guest's disk.
    pub blocks: u32,
    /// The blocks of a chunk.
    pub chunk: u32,
    /// The header's generation.
    pub generation: u64,
}
