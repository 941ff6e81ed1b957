//! Logs and histories whose memory is taken when they are made, and in which a content that was told before is kept once.
#![tactic(auto)]

pub mod calls;
pub mod history;
pub mod log;
mod sharing;
#[cfg(test)]
mod sharing_tests;
mod stored;
#[cfg(test)]
mod tests;
