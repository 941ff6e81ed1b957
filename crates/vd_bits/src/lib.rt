//! Truth values of a disk's blocks, and sets of numbers whose lowest member is found without a walk over all.
#![tactic(auto)]

pub mod bits;
mod flags;
mod levels;
pub mod marked;
#[cfg(test)]
mod tests;
