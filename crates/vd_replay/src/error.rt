//! Why an image is not opened.

use vd_format::HeaderError;
use vd_law::entry::NoMemory;

/// Why an image was not opened. Chunks and slots are counted from 0.
#[derive(Clone, Copy, PartialEq, Eq, Drop)]
pub enum OpenError {
    /// The store failed the ticket of this number.
    Store(u64),
    /// The first sector is no header.
    Header(HeaderError),
    /// The image needs more sectors than the store has.
    TooSmall { need: u64, have: u64 },
    /// The image is of a version below the oldest that was asked for.
    OldVersion,
    /// The chunk's entry in the map is outside the grammar. The value is its storage field.
    BadEntry { chunk: u32, value: u32 },
    /// The slot's record counts and is outside the grammar.
    BadRecord { slot: u32 },
    /// Two chunks have one storage chunk when all facts are applied. `b` is the lowest that repeats a chunk before it.
    DoubleChunk { a: u32, b: u32 },
    /// A field that never changes is not what it was: 1 block, 2 chunk, 3 size, 4 storage, 5 slots, 9 version.
    Changed { field: u8 },
    /// The image is of version 1, and a chunk has storage or a record counts.
    NotBuilt,
    /// Memory was refused.
    NoMemory,
}

impl From<NoMemory> for OpenError {
    ghost use Rattle.std.specs.Prelude.{◌≡◌};
    ghost use Rattle.vd_replay.specs.declared.error.OpenError.TheVariants.{NoMemory};

    ghost from_gives = { λ _ r. r ≡ NoMemory };

    fn from(_: NoMemory) -> OpenError {
        OpenError::NoMemory
    }
}
