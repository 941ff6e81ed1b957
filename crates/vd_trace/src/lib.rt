//! Traces: what guests ask, and which sectors are shown in the end.
#![tactic(auto)]

pub mod error;
mod fields;
mod hex_digits;
mod kept;
pub mod line;
mod needs;
mod printing;
mod reading;
mod streaming;
#[cfg(test)]
mod tests;
mod text;
pub mod trace;
