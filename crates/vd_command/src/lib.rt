//! The words of the commands.
#![tactic(auto)]

mod arguments;
mod command;
#[cfg(test)]
mod tests;

pub use command::Command;
