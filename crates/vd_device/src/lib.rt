//! Devices: a store of sectors that is written, and a base that is only read. What is submitted is in flight until it settles.
#![tactic(auto)]

mod base;
mod now;
mod patient;
mod quiet;
mod settled;
mod store;
mod ticket;

pub use base::Base;
pub use now::{flush_now, read_base, read_now, write_now};
pub use patient::Patient;
pub use quiet::{flush_only, read_only, sectors_at_rest};
pub use settled::{Settled, Waited};
pub use store::Store;
pub use ticket::{Kind, Ticket};
