//! What one step of a pass does, over the parts of a core: a store, a base, the passes and the history.
#![tactic(auto)]

mod adding;
mod asking;
mod entering;
mod fetching;
mod issuing;
mod looking;
mod outcome;

pub use asking::{ask_in_room, reply_in_room};
pub use entering::enter_block;
pub use fetching::{below, fetch_block, settle_block};
pub use issuing::{issue_piece, settle_write};
pub use looking::{look_at_base, look_at_store, see_zeros, settle_base_look, settle_store_look};
pub use outcome::Outcome;
