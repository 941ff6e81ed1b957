//! The command `make`: a new image, which a crash leaves whole or not at all.
#![tactic(auto)]

mod filling;
mod making;

pub use making::make;
