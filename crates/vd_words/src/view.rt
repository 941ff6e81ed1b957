//! What the marks are made for, and what a seat at them knows.
use std::collections::LinkedList;

/// How many blocks have a mark, how many numbers are drawn, and by how many scans.
#[derive(Clone, Copy)]
pub struct Plan {
    pub blocks: u32,
    pub drawn: u32,
    pub scans: u32,
}

/// What a pen or a scan did. No value of it is made.
pub struct View {
    /// How many of the seats that were made are joined in this one.
    pub parts: u64,
    pub marked: LinkedList<u64>,
    pub drawn: LinkedList<u64>,
    /// Each block that was looked at, with the answer.
    pub looks: LinkedList<(u64, bool)>,
    /// The words that the looks found.
    pub found: LinkedList<u64>,
}
