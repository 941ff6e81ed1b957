//! The texts that commands print (sectors, lines, answers, histories), and the statuses with which they end.
#![tactic(auto)]

pub mod line;
pub mod printing;
pub mod replies;
pub mod room;
pub mod sectors;
pub mod status;
pub mod sum;
#[cfg(test)]
mod tests;
mod text;
