//! A lock round a value that keeps a list of entries, and what each pass knows of that value.
#![tactic(auto)]

mod board;
mod dealing;
mod holding;
mod keeping;
mod lock;
mod passes;
mod plays;
#[cfg(test)]
mod tests;

pub use holding::Held;
pub use keeping::Kept;
pub use lock::{Refused, Turn};
pub use passes::TurnPass;
