//! How a call in flight went on.

use crate::ticket::Ticket;

/// How a call in flight went on when it was asked once.
pub enum Settled {
    /// It is done, and what it reads was read.
    Done,
    /// It is still in flight, under the ticket that was handed in.
    NotYet(Ticket),
    /// It failed. The number is the ticket's.
    Failed(u64),
}

/// How a call in flight ended when it was waited for.
pub enum Waited {
    /// It is done, and what it reads was read.
    Done,
    /// It failed. The number is the ticket's.
    Failed(u64),
}
