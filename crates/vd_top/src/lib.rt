//! One command, over devices that are handed in.
#![tactic(auto)]

mod commands;

pub use commands::{still, store_sectors};
pub use vd_run::End;
