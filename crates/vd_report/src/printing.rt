//! How a command ends: its text goes to the sink, and its status is answered.

ghost use Rattle.std.specs.Prelude.{◌≡◌, ℕ, ◌≤◌, length, OnOk, OnErr};
ghost use Rattle.vd_io.specs.Streams.{WritesText};
ghost use Rattle.vd_report.specs.Statuses.{status_of_line};
ghost use Rattle.vd_report.specs.Outcomes.{Says, Shown};
ghost use Rattle.vd_report.specs.Tokens.{show_text};
ghost use Rattle.vd_report.specs.Ending.{PrintsOutcome, is_device_fault, status_unwritten, about_line};
ghost use Rattle.vd_report.specs.Writing.{WritesOn};
ghost use Rattle.vd_law.specs.Counts.{Rose};

use crate::line::{About, Line, put_line, put_line_about};
use crate::sectors::put_show;
use crate::status::status_of;
use vd_io::Failed;
use vd_io::sink::Sink;
use vd_law::entry::Sector;

/// The status of a command that would end with this one, once its text was written with this result.
pub fn ended(status: u8, written: Result<(), Failed>) -> u8
    ensures whole { OnOk written (result ≡ status) }
    ensures cut { OnErr written (result ≡ status_unwritten status) }
{
    match written {
        Ok(()) => status,
        Err(_) if status < 2 => 6,
        Err(_) => status,
    }
}

/// Prints a line, and answers the status with which it ends the command.
pub fn say<O: Sink>(out: &mut O, line: Line) -> u8
    ensures ends { PrintsOutcome O.Sink (Says line) result out.old out.new }
{
    let status = status_of(line);
    match put_line(out, line) {
        Ok(()) => status,
        Err(_) if status < 2 => 6,
        Err(_) => status,
    }
}

/// Prints one more line, unless the sink has failed at what was printed before.
pub fn put_next<O: Sink>(
    out: &mut O,
    written: Result<(), Failed>,
    about: About,
    line: Line,
) -> Result<(), Failed>
    ensures { WritesOn O.Sink (about_line about line) written result out.old out.new }
{
    written?;
    put_line_about(out, about, line)
}

/// Prints a line of sectors, unless the sink has failed at what was printed before.
pub fn put_sectors<O: Sink>(
    out: &mut O,
    written: Result<(), Failed>,
    first: u64,
    sectors: &[Sector],
) -> Result<(), Failed>
    ensures { WritesOn O.Sink (show_text first sectors.now) written result out.old out.new }
{
    written?;
    put_show(out, first, sectors)
}

/// Prints sectors, and answers the status with which this ends the command.
pub fn print_sectors<O: Sink>(out: &mut O, first: u64, sectors: &[Sector]) -> u8
    ensures ends { PrintsOutcome O.Sink (Shown first sectors.now) result out.old out.new }
{
    match put_show(out, first, sectors) {
        Ok(()) => 0,
        Err(_) => 6,
    }
}
