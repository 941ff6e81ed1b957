//! Devices over files. What they hold is the files' and is told by no contract.
#![tactic(auto)]

mod base;
mod bytes;
mod file;
mod store;
#[cfg(test)]
mod tests;

pub use base::FileBase;
pub use file::NotOpened;
pub use store::FileStore;
