//! Devices in memory that tell everything, fail by a list of rules, and leave crash images.
#![tactic(auto)]

mod crash;
mod ends;
mod fuse;
mod mem_base;
mod mem_store;
mod store;
#[cfg(test)]
mod tests;
mod tickets;

pub use fuse::Fuse;
pub use mem_base::MemBase;
pub use mem_store::MemStore;
