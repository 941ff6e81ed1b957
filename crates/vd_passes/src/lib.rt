//! The passes of a disk: what each has asked, holds and has in flight, and the laws by which their steps keep one history.
#![tactic(auto)]

pub mod buffer;
pub mod pass;
pub mod shape;
