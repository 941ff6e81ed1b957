//! How many sectors a command works with at once.

/// The most that one ticket reads or writes, that one request has, and that one line shows.
pub const MOST: u64 = 2048;
