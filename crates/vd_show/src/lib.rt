//! The command `show`: the sectors of the disk that an image at rest stands for, or why they are not shown.
#![tactic(auto)]

mod showing;

pub use showing::{fault_line, show, show_line};
