//! Why a trace was not read.

use std::alloc::AllocError;
use vd_io::Failed;

/// Why a trace was not read. Lines are counted from 1.
#[derive(Clone, Copy, Debug, PartialEq, Eq, Drop)]
pub enum TraceError {
    /// The line is the first that is not in the grammar.
    Bad { line: u64 },
    /// The line is in the grammar, and the first with which there are too many lines or sectors.
    TooMuch { line: u64 },
    /// The source failed.
    Source,
    /// Memory was refused.
    NoMemory,
}

impl From<AllocError> for TraceError {
    ghost use Rattle.std.specs.Prelude.{◌≡◌};
    ghost use Rattle.vd_trace.specs.declared.error.TraceError.TheVariants.{NoMemory};

    ghost from_gives = { λ _ r. r ≡ NoMemory };

    fn from(_: AllocError) -> TraceError {
        TraceError::NoMemory
    }
}

impl From<Failed> for TraceError {
    ghost use Rattle.std.specs.Prelude.{◌≡◌};
    ghost use Rattle.vd_trace.specs.declared.error.TraceError.TheVariants.{Source};

    ghost from_gives = { λ _ r. r ≡ Source };

    fn from(_: Failed) -> TraceError {
        TraceError::Source
    }
}
