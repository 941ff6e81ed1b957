//! A source, read line by line.

ghost use Rattle.std.specs.Prelude.{◌≡◌, ◌<◌, ◌≤◌, ℕ, List, [], ◌++◌, true, false, None, MatchResult, IfOk, IfErr, OnOk};
ghost use Rattle.std.specs.Str.Lines.{lines, strip_carriage_return};
ghost use Rattle.memchr.specs.Find.{IsFirstByte, is_byte};
ghost use Rattle.vd_trace.specs.declared.error.TraceError.TheVariants.{Source};
ghost use Rattle.vd_trace.specs.Keeping.{HasReadLines};
ghost use Rattle.vd_trace.specs.Streaming.{StandsAt, EndsBy, HasTaken, FailsBehind, left_over};
ghost use Rattle.vd_law.specs.Counts.{Rose};

use crate::error::TraceError;
use crate::kept::{Draft, take};
use crate::reading::MOST_BYTES;
use vd_io::source::Source;
use vd_io::window::Window;

/// The line without the carriage return at its end.
fn stripped(line: &[u8]) -> &[u8]
    ensures { result.now ≡ strip_carriage_return line.now }
{
    if !line.is_empty() && line[line.len() - 1] == b'\r' {
        &line[..line.len() - 1]
    } else {
        line
    }
}

/// Takes the next line, or reads more where its end has not been read. Answers whether the source has ended.
fn step<I: Source>(
    draft: &mut Draft,
    window: &mut Window,
    source: &mut I,
) -> Result<bool, TraceError>
    requires { (done : List (List ℕ)) × HasReadLines done draft.old }
    ensures goes { (all : List (List ℕ)) → StandsAt all (I.tells source.old) (window.old ++ I.rest source.old) draft.old → MatchResult result
        (λ ended. StandsAt all (I.tells source.new) (window.new ++ I.rest source.new) draft.new) (EndsBy draft.old.guests all (I.tells source.new)) }
    ensures takes { (all : List ℕ) → (I.tells source.old → HasTaken all (window.old ++ I.rest source.old) draft.old) → I.tells source.new → MatchResult result
        (λ ended. HasTaken all (window.new ++ I.rest source.new) draft.new) (λ e. e ≡ Source → FailsBehind draft.old.guests all (I.rest source.new)) }
    ensures ended { IfOk result (λ ended. ended ≡ true → IsFirstByte (is_byte 10) window.new None × (I.tells source.new → I.rest source.new ≡ [])) }
    ensures less { IfOk result (λ ended. ended ≡ false → left_over draft.new window.new < left_over draft.old window.old) }
    ensures guests { OnOk result (draft.new.guests ≡ draft.old.guests) }
    ensures told_before { I.tells source.new → I.tells source.old }
    ensures no_fewer_faults { I.faults source.old ≤ I.faults source.new }
    ensures cause { IfErr result (λ e. e ≡ Source → Rose (I.faults source.old) (I.faults source.new)) }
{
    match memchr::memchr(b'\n', window.bytes()) {
        Some(end) => {
            take(draft, stripped(&window.bytes()[..end]))?;
            window.skip(end + 1);
            Ok(false)
        }
        None => {
            if window.len() > MOST_BYTES + 1 {
                return Err(TraceError::Bad {
                    line: u64::from(draft.lines) + 1,
                });
            }
            let count = window.fill(source)?;
            Ok(count == 0)
        }
    }
}

/// Reads the source to its end.
pub fn read_lines<I: Source>(draft: &mut Draft, source: &mut I) -> Result<(), TraceError>
    requires { HasReadLines [] draft.old }
    ensures kept { OnOk result ((done : List (List ℕ)) × HasReadLines done draft.new) }
    ensures reads { I.tells source.new → MatchResult result (λ u. HasReadLines (lines (I.rest source.old)) draft.new)
        (EndsBy draft.old.guests (lines (I.rest source.old)) (I.tells source.new)) }
    ensures behind { I.tells source.new → IfErr result (λ e. e ≡ Source → FailsBehind draft.old.guests (I.rest source.old) (I.rest source.new)) }
    ensures ended { I.tells source.new → OnOk result (I.rest source.new ≡ []) }
    ensures guests { OnOk result (draft.new.guests ≡ draft.old.guests) }
    ensures told_before { I.tells source.new → I.tells source.old }
    ensures no_fewer_faults { I.faults source.old ≤ I.faults source.new }
    ensures cause { IfErr result (λ e. e ≡ Source → Rose (I.faults source.old) (I.faults source.new)) }
{
    let mut window = Window::new();
    'pieces: loop {
        if step(draft, &mut window, source)? {
            break;
        }
    }
    if window.len() == 0 {
        return Ok(());
    }
    take(draft, window.bytes())
}
