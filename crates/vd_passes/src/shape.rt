//! The shape of a disk over a store and a base.

/// The shape of a disk. Sectors have 512 bytes.
#[derive(Clone, Copy, Drop)]
pub struct Shape {
    /// The sectors of a block, at most 128.
    pub block: u64,
    /// The blocks of a chunk, at most 64.
    pub chunk: u64,
    /// The blocks of the disk.
    pub blocks: u64,
    /// How many sectors from 0 on are those of the base where they aren't local. The others are zeros.
    pub tracked: u64,
    /// How many of these the base has.
    pub limit: u64,
    /// The first sector of the store's storage area.
    pub storage_at: u64,
}
