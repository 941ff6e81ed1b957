//! Which storage chunk each chunk of a disk has.
#![tactic(auto)]

pub mod runs;
pub mod table;
#[cfg(test)]
mod tests;
