//! The edge of the program: the files of a command, its text, and the status that the program ends with.
#![tactic(auto)]

mod devices;
mod ending;
mod session;
#[cfg(test)]
mod tests;

pub use session::over_files;
