//! The byte format of an image, and the code that reads and writes it: its header and layout, the entries of its map and the records of its journal.
//!
//! The rules stand in specs/: `Layouts` says where each area is, `Headers` how the header is read, `Entries` how the map is, `Records` how a slot of the journal is.
#![tactic(auto)]

mod header;
mod journal;
mod map;
pub mod numbers;
pub mod zeros;

pub use header::{
    HEADER_MAGIC, Header, HeaderError, Layout, layout_of, place_of_block, read_header, valid,
    write_header,
};
pub use journal::{Fact2, Facts2, RECORD_MAGIC, Slot2, read_record2, write_record2};
pub use map::{Entry, Map, Shape2, page_of, read_entry};

#[cfg(test)]
mod tests;
