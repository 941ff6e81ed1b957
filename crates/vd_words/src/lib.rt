//! One atomic mark for each block of a disk, and numbers that scans draw from one cursor.
//!
//! A pen sets marks, and scans look at them and draw numbers, each from any thread and with no waiting.
//! What each of them did is known to proofs as a list, and `Marks::close` compares the lists.
#![tactic(auto)]

mod marks;
mod steps;
#[cfg(test)]
mod tests;
mod view;

pub use marks::{Marks, Pen, Scan};
