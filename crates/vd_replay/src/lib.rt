//! The opening of an image: what its header, its map and its journal say, as a state that a disk goes on from.
#![tactic(auto)]

mod area;
mod background;
mod buffer;
mod disk;
mod error;
mod fresh;
mod header;
mod journal;
mod pages;
mod placing;
mod slots;
mod state;

pub use buffer::ReadBuffer;
pub use disk::{DiskFault, read_disk};
pub use error::OpenError;
pub use state::{Cursor, State, recover};
