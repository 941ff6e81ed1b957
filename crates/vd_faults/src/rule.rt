//! The rules by which a device in memory fails.

/// What a failed write leaves in its sectors.
#[derive(Clone, Copy, Debug, PartialEq, Eq, Drop)]
pub enum Keep {
    /// Each is as it was before.
    Old,
    /// Each is as it was to be written.
    New,
}

/// How a device in memory fails. Numbers count from 1.
#[derive(Clone, Copy, Debug, PartialEq, Eq, Drop)]
pub enum Rule {
    /// Fails the `nth` ticket that ends, of whatever kind.
    FailNth { nth: u64, keep: Keep },
    /// Fails the `nth` write of a store, or read of a base, that covers the sector. All that were submitted count, also
    /// those that fail by another rule.
    FailAt { sector: u64, nth: u64, keep: Keep },
    /// Holds each ticket that covers `sector` until one that covers `until` has ended. While it has polls left, each poll
    /// of a ticket that it holds takes one and answers NotYet. A poll without one left fails the ticket, and so does a wait.
    Hold { sector: u64, until: u64, polls: u64 },
}
