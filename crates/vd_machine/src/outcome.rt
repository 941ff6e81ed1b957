//! How a settle went on.

/// How a call in flight went on.
#[derive(Clone, Copy, Debug, PartialEq, Eq, Drop)]
pub enum Outcome {
    Done,
    /// It isn't done yet.
    Late,
    Failed,
}
