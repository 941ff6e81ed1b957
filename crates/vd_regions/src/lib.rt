//! Which pass holds which blocks.
#![tactic(auto)]

pub mod regions;
#[cfg(test)]
mod tests;
