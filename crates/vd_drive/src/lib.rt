//! The drivers of a core: each makes the one step that a pass calls for, of its write, its read or its flush.
#![tactic(auto)]

mod flush;
mod read;
mod write;

pub use flush::Flusher;
pub use read::Reader;
pub use write::Writer;
