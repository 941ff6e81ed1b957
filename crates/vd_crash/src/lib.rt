//! Crash safety of a disk image over the logs of its store and its guest: the facts that safety follows from,
//! the steps and flushes that keep them, and every interleaving of a core's primitives.
//!
//! The functions here do nothing: their contracts are the laws on which a core's proof stands.
#![tactic(auto)]

// The parts are public, so that crates above can cite their lemmas.
pub mod facts;
pub mod flushes;
pub mod primitives;

pub use facts::{
    an_opening_can_be_met, facts_are_enough, facts_at_opening, history_is_the_same,
    safe_after_entry, safe_after_event, safe_in_the_words_of_the_law,
};
pub use flushes::{each_step_keeps, every_run_is_safe};
pub use primitives::{every_interleaving_is_safe, safety_is_kept, what_is_kept};
