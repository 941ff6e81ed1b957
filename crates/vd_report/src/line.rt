//! Lines that name what became of a command, or of a part of one.

ghost use Rattle.std.specs.Prelude.{◌≡◌, ◌+◌, ◌≤◌, [], ◌∷◌, ◌++◌, length, codes, OnErr};
ghost use Rattle.vd_io.specs.Streams.{WritesText};
ghost use Rattle.vd_report.specs.Lines.{phrase, line_text, about_text};
ghost use Rattle.vd_law.specs.Counts.{Rose};

use crate::text::{Text, push_phrase, push_word};
use vd_io::Failed;
use vd_io::sink::Sink;

/// What a line says. Its numbers are printed in decimal, in the order in which they stand here.
#[derive(Clone, Copy, Drop)]
pub enum Line {
    /// `ok`
    Ok,
    /// `bad words`: the words are outside the command grammar.
    BadWords,
    /// `no memory`
    NoMemory,
    /// `source fault`: the trace could not be read.
    SourceFault,
    /// `not built`: the image holds what this stage of the program does not read.
    NotBuilt,
    /// `past the disk`: the range of a command's words lies past the disk.
    PastTheDisk,
    /// `line N: bad`: line N of the trace, counted from 1, is outside the grammar.
    BadLine { number: u64 },
    /// `line N: too much`: the trace is too long, or has too many sectors, from this line on.
    TooMuch { number: u64 },
    /// `line N: past the disk`: the range of this line of the trace lies past the disk.
    LinePastTheDisk { number: u64 },
    /// `not image`: the first sector has another magic.
    NotImage,
    /// `version N`: the header's version is none that is known.
    Version { version: u32 },
    /// `bad field N`: the header's field of this number is outside its range.
    BadField { field: u8 },
    /// `too small NEED HAVE`: sectors that the image needs, and sectors that the store has.
    TooSmall { need: u64, have: u64 },
    /// `old version`: the command asks for a later version of the image.
    OldVersion,
    /// `bad entry CHUNK VALUE`: a chunk's entry is outside its range.
    BadEntry { chunk: u32, value: u32 },
    /// `double chunk A B`: two chunks have one storage chunk.
    DoubleChunk { first: u32, second: u32 },
    /// `bad bits CHUNK`: a chunk's bits are outside their range.
    BadBits { chunk: u32 },
    /// `bad record SLOT`: the record in this journal slot, counted from 0, is outside the grammar.
    BadRecord { slot: u32 },
    /// `changed N`: the header's field of this number is no longer what it was.
    Changed { field: u8 },
    /// `store fault TICKET`: the store failed the ticket of this number.
    StoreFault { ticket: u64 },
    /// `base fault TICKET`: the base failed the ticket of this number.
    BaseFault { ticket: u64 },
    /// `made NEED`: an image of so many sectors was made.
    Made { need: u64 },
    /// `tracked NEW`: the tracked part ends at this sector now.
    Tracked { new: u64 },
    /// `not less TRACKED`: the tracked part ends at this sector, and can only be lowered.
    NotLess { tracked: u64 },
    /// `not zero SECTOR`: this sector, which would no longer be tracked, is neither zero in the base nor local.
    NotZero { sector: u64 },
    /// `worn GENERATION`: the image has its last generation.
    Worn { generation: u64 },
    /// `local N of M`: so many of the blocks that begin in the tracked part are local.
    Local { local: u64, of: u64 },
}

/// What a line is about, which it begins with.
#[derive(Clone, Copy, Drop)]
pub enum About {
    /// Nothing stands before the line: it is about the command itself.
    Command,
    /// `close`
    Closing,
    /// `reopen`
    Reopening,
    /// `show FIRST`: sectors from this one on.
    Shown { first: u64 },
}

fn push_about(text: &mut Text, about: About)
    requires { length text.old.items + 27 ≤ 128 }
    ensures items { text.new.items ≡ text.old.items ++ about_text about }
    ensures longer { length text.new.items ≤ length text.old.items + 27 }
{
    match about {
        About::Command => {}
        About::Closing => push_word(text, b"close "),
        About::Reopening => push_word(text, b"reopen "),
        About::Shown { first } => {
            push_phrase(text, b"show", &[first]);
            push_word(text, b" ");
        }
    }
}

fn push_numbered(text: &mut Text, number: u64, what: &[u8])
    requires { length text.old.items + 25 + length what.now ≤ 128 }
    ensures items { text.new.items ≡ text.old.items ++ (phrase (codes "line") (number ∷ []) ++ what.now) }
    ensures longer { length text.new.items ≤ length text.old.items + 25 + length what.now }
{
    push_phrase(text, b"line", &[number]);
    push_word(text, what);
}

fn push_line(text: &mut Text, line: Line)
    requires { length text.old.items + 60 ≤ 128 }
    ensures items { text.new.items ≡ text.old.items ++ line_text line }
    ensures longer { length text.new.items ≤ length text.old.items + 60 }
{
    match line {
        Line::Ok => push_word(text, b"ok"),
        Line::BadWords => push_word(text, b"bad words"),
        Line::NoMemory => push_word(text, b"no memory"),
        Line::SourceFault => push_word(text, b"source fault"),
        Line::NotBuilt => push_word(text, b"not built"),
        Line::PastTheDisk => push_word(text, b"past the disk"),
        Line::BadLine { number } => push_numbered(text, number, b": bad"),
        Line::TooMuch { number } => push_numbered(text, number, b": too much"),
        Line::LinePastTheDisk { number } => push_numbered(text, number, b": past the disk"),
        Line::NotImage => push_word(text, b"not image"),
        Line::Version { version } => push_phrase(text, b"version", &[version.into()]),
        Line::BadField { field } => push_phrase(text, b"bad field", &[field.into()]),
        Line::TooSmall { need, have } => push_phrase(text, b"too small", &[need, have]),
        Line::OldVersion => push_word(text, b"old version"),
        Line::BadEntry { chunk, value } => push_phrase(
            text,
            b"bad entry",
            &[chunk.into(), value.into()],
        ),
        Line::DoubleChunk { first, second } => push_phrase(
            text,
            b"double chunk",
            &[first.into(), second.into()],
        ),
        Line::BadBits { chunk } => push_phrase(text, b"bad bits", &[chunk.into()]),
        Line::BadRecord { slot } => push_phrase(text, b"bad record", &[slot.into()]),
        Line::Changed { field } => push_phrase(text, b"changed", &[field.into()]),
        Line::StoreFault { ticket } => push_phrase(text, b"store fault", &[ticket]),
        Line::BaseFault { ticket } => push_phrase(text, b"base fault", &[ticket]),
        Line::Made { need } => push_phrase(text, b"made", &[need]),
        Line::Tracked { new } => push_phrase(text, b"tracked", &[new]),
        Line::NotLess { tracked } => push_phrase(text, b"not less", &[tracked]),
        Line::NotZero { sector } => push_phrase(text, b"not zero", &[sector]),
        Line::Worn { generation } => push_phrase(text, b"worn", &[generation]),
        Line::Local { local, of } => {
            push_phrase(text, b"local", &[local]);
            push_phrase(text, b" of", &[of]);
        }
    }
}

/// Writes a line about the closing, the reopening or what is shown, in one write. After Failed a front of it is written.
pub fn put_line_about<O: Sink>(out: &mut O, about: About, line: Line) -> Result<(), Failed>
    ensures told_before { O.tells out.new → O.tells out.old }
    ensures writes { O.tells out.new → WritesText (about_text about ++ line_text line ++ codes "\n") result (O.written out.old) (O.written out.new) }
    ensures no_fewer_faults { O.faults out.old ≤ O.faults out.new }
    ensures cause { OnErr result (Rose (O.faults out.old) (O.faults out.new)) }
{
    let mut text = Text::new();
    push_about(&mut text, about);
    push_line(&mut text, line);
    push_word(&mut text, b"\n");
    out.write(text.as_slice())
}

/// Writes a line about the command, in one write. After Failed a front of it is written.
pub fn put_line<O: Sink>(out: &mut O, line: Line) -> Result<(), Failed>
    ensures told_before { O.tells out.new → O.tells out.old }
    ensures writes { O.tells out.new → WritesText (line_text line ++ codes "\n") result (O.written out.old) (O.written out.new) }
    ensures no_fewer_faults { O.faults out.old ≤ O.faults out.new }
    ensures cause { OnErr result (Rose (O.faults out.old) (O.faults out.new)) }
{
    put_line_about(out, About::Command, line)
}
