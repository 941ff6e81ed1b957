//! The keeper of an image's metadata: which blocks every image has, which the next flush must log, and what a flush writes next.
#![tactic(auto)]

mod flushing;
mod keeper;
mod owing;
mod putting;
mod sets;
mod stage;

pub use keeper::Keeper;
pub use stage::{Put, Route, Stage, Way};

#[cfg(test)]
mod tests;
