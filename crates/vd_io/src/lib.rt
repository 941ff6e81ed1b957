//! Where bytes come from and where they go.
#![tactic(auto)]

pub mod mem_sink;
pub mod mem_source;
pub mod sink;
pub mod source;
pub mod std_sink;
pub mod std_source;
#[cfg(test)]
mod tests;
pub mod window;

/// A read or a write failed. The source or sink has counted it among its faults.
#[derive(Clone, Copy, Debug, PartialEq, Eq, Drop)]
pub struct Failed;
