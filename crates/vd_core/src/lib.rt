//! The core of a disk: passes whose steps keep one legal history over a store and a base.
#![tactic(auto)]

mod flushing;
mod opening;
mod outcome;
mod reads;
mod requests;
mod state;
mod writes;

pub use flushing::Begun;
pub use opening::{Closed, Unopened};
pub use outcome::Step;
pub use state::Core;
