//! The command `run`: one guest's requests over an image, the flush that closes it, and the report of their history.
#![tactic(auto)]

mod ending;
mod reopening;
mod reporting;
mod running;
mod serving;

pub use ending::{End, unserved};
pub use running::run;
