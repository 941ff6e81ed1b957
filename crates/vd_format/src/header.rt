//! The header of an image, and the layout that it gives: the first sector of a store, read and written.

mod areas;
mod reading;
mod rules;
mod writing;

pub use areas::{layout_of, place_of_block};
pub use reading::read_header;
pub use rules::valid;
pub use writing::write_header;

/// The first bytes of a header.
pub const HEADER_MAGIC: [u8; 8] = *b"FVDPROF1";

/// The header of an image. Sectors have 512 bytes. The rules of the fields stand in specs/Headers.antt.
#[derive(Clone, Copy, PartialEq, Eq, Drop)]
pub struct Header {
    /// 1 or 2.
    pub version: u32,
    /// The sectors of a block: 8, 16, 32, 64 or 128.
    pub block: u32,
    /// The blocks of a chunk: a power of two, at most 64.
    pub chunk: u32,
    /// The storage chunks of the store, from 1 to the number of the guest's chunks.
    pub storage: u32,
    /// The slots of the journal, from 1 to 4,096.
    pub slots: u32,
    /// The sectors of the guest's disk: whole blocks, at most 16,777,216 in version 1 and 67,108,864 in version 2.
    pub size: u64,
    /// How many sectors from 0 on, at most all, read from the base where they are not local.
    pub tracked: u64,
    /// From 1 to 2^63 - 1, one more each time that the journal begins anew.
    pub generation: u64,
}

/// Why a sector is no header.
#[derive(Clone, Copy, PartialEq, Eq, Drop)]
pub enum HeaderError {
    /// The magic is not there.
    NotImage,
    /// This version is unknown.
    Version(u32),
    /// This field is outside its rule: 1 block, 2 chunk, 3 size, 4 storage, 5 slots, 6 tracked, 7 generation, 8 the zero bytes.
    Field(u8),
}

/// Where the areas of a store begin, in sectors. The header is sector 0.
#[derive(Clone, Copy, PartialEq, Eq, Drop)]
pub struct Layout {
    /// The blocks of the guest's disk.
    pub blocks: u32,
    /// The chunks of the guest's disk.
    pub chunks: u32,
    pub table_at: u64,
    pub bits_at: u64,
    /// The map, in version 2.
    pub spare_at: u64,
    pub slots_at: u64,
    pub storage_at: u64,
    /// The first sector past the storage.
    pub need: u64,
}
