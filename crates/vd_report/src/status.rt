//! The statuses with which commands end.

ghost use Rattle.std.specs.Prelude.{◌≡◌};
ghost use Rattle.vd_report.specs.Statuses.{status_of_line};
ghost use Rattle.vd_report.specs.Ending.{is_device_fault};

use crate::line::Line;

/// The status with which a line ends a command.
pub fn status_of(line: Line) -> u8
    ensures { result ≡ status_of_line line }
{
    match line {
        Line::Ok | Line::Made { .. } | Line::Tracked { .. } | Line::Local { .. } => 0,
        Line::NotLess { .. } | Line::NotZero { .. } | Line::Worn { .. } => 1,
        Line::BadWords => 2,
        Line::NotImage
        | Line::Version { .. }
        | Line::BadField { .. }
        | Line::TooSmall { .. }
        | Line::OldVersion
        | Line::BadEntry { .. }
        | Line::DoubleChunk { .. }
        | Line::BadBits { .. }
        | Line::BadRecord { .. }
        | Line::Changed { .. } => 3,
        Line::PastTheDisk
        | Line::BadLine { .. }
        | Line::TooMuch { .. }
        | Line::LinePastTheDisk { .. } => 4,
        Line::StoreFault { .. } | Line::BaseFault { .. } => 5,
        Line::SourceFault => 6,
        Line::NoMemory => 7,
        Line::NotBuilt => 8,
    }
}

/// Whether the line names a device that failed.
pub fn is_fault(line: Line) -> bool
    ensures { result ≡ is_device_fault line }
{
    status_of(line) == 5
}
