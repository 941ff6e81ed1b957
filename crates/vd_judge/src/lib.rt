//! The law of the disk as plain programs: whether a log is legal, and which contents its sectors may hold, now and after a crash.
//! They are slow and take no memory: what the other crates do is tested against them.
#![tactic(auto)]

mod calls;
mod contents;
pub mod deciding;
pub mod flat;
pub mod list;
mod rules;
#[cfg(test)]
mod tests;
