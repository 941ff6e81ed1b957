//! The journal: what a record says of chunks, and how a slot is read and written.

mod facts;
mod records;

use crate::map::Entry;
pub use facts::{Facts2, Slot2};
pub use records::{read_record2, write_record2};

/// The first bytes of a record.
pub const RECORD_MAGIC: [u8; 8] = *b"FVDRECO2";

/// What a record says of one chunk.
#[derive(Clone, Copy, PartialEq, Eq, Drop)]
pub struct Fact2 {
    pub chunk: u32,
    pub entry: Entry,
}
