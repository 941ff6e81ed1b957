//! A sink over a writer of std.

ghost use Rattle.std.specs.Prelude.{◌≡◌, ◌<◌, ◌≤◌, ℕ, IfOk, OnErr, OnOk, length, take};
ghost use Rattle.std.specs.Io.KnownBytes.{Appends, Keeps, WriteAppends};
ghost use Rattle.vd_io.specs.Streams.{WritesText};
ghost use Rattle.vd_io.specs.Told.{AlwaysKnown, CountsFault, HasKnownBytes, Lacks, bytes_of};
ghost use Rattle.vd_law.specs.Counts.{Rose};

use crate::Failed;
use crate::sink::Sink;
use std::io::{ErrorKind, Write};
use std::marker::Model;

/// A sink over a writer. It tells its bytes where every writer of this type does, and counts the writes that failed.
#[derive(Drop)]
pub struct StdSink<W> {
    inner: W,
    faults: u64,
}

impl<W> Model for StdSink<W> {
    ghost use Rattle.vd_io.specs.Told.{Over};

    ghost Value = { Over W };

    ghost view = { λ s. record { inner = s.inner; faults = s.faults } };
}

/// Writes once, and again where a signal interrupted the write, which then wrote nothing.
fn write_once<W: Write>(inner: &mut W, bytes: &[u8]) -> Result<usize, Failed>
    ensures within { IfOk result (λ n. n ≤ length bytes.now) }
    ensures bytes { WriteAppends (W.contents inner.old) (W.contents inner.new) result bytes.now }
{
    for _ in 0..u64::MAX {
        match inner.write(bytes) {
            Ok(count) => return Ok(count),
            Err(error) => {
                if error.kind() != ErrorKind::Interrupted {
                    return Err(Failed);
                }
            }
        }
    }
    Err(Failed)
}

/// Writes all of the bytes: the writer may take a part, and what it left is written next. That it takes none is a
/// failure.
fn write_through<W: Write>(inner: &mut W, bytes: &[u8]) -> Result<(), Failed>
    ensures all { OnOk result (Appends (W.contents inner.old) (W.contents inner.new) bytes.now) }
    ensures part { OnErr result ((k : ℕ) × (k < length bytes.now) × Appends (W.contents inner.old) (W.contents inner.new) (take k bytes.now)) }
{
    let mut done = 0;
    while done < bytes.len() {
        let count = write_once(inner, &bytes[done..])?;
        if count == 0 {
            return Err(Failed);
        }
        done += count;
    }
    Ok(())
}

impl<W> StdSink<W> {
    /// A sink over this writer.
    pub fn new(inner: W) -> StdSink<W>
        ensures { result ≡ record { inner = inner; faults = 0 } }
    {
        StdSink { inner, faults: 0 }
    }

    /// The answer of a call on the writer, counted where it is a failure.
    fn counted(&mut self, answer: Result<(), Failed>) -> Result<(), Failed>
        ensures answer { result ≡ answer }
        ensures inner { self.new.inner ≡ self.old.inner }
        ensures no_fewer_faults { self.old.faults ≤ self.new.faults }
        ensures counts { CountsFault result self.old.faults self.new.faults }
    {
        if let Err(Failed) = answer {
            self.faults = self.faults.saturating_add(1);
        }
        answer
    }
}

impl<W: Write> StdSink<W> {
    /// Hands on what the writer still keeps, as one with a buffer does. After Failed some of it may not be written.
    pub fn flush(&mut self) -> Result<(), Failed>
        ensures bytes { Keeps (W.contents self.old.inner) (W.contents self.new.inner) }
        ensures no_fewer_faults { self.old.faults ≤ self.new.faults }
        ensures cause { OnErr result (Rose self.old.faults self.new.faults) }
        ensures counts { CountsFault result self.old.faults self.new.faults }
    {
        let answer = self.inner.flush().map_err(|_| Failed);
        self.counted(answer)
    }
}

impl<W: Write> Sink for StdSink<W> {
    ghost tells = { λ _. AlwaysKnown W.contents };

    ghost written = { bytes_of W.contents };

    ghost faults = { λ s. s.faults };

    fn write(&mut self, bytes: &[u8]) -> Result<(), Failed>
        ensures known { HasKnownBytes W.contents self.old → HasKnownBytes W.contents self.new }
        ensures writes { HasKnownBytes W.contents self.old → WritesText bytes.now result (bytes_of W.contents self.old) (bytes_of W.contents self.new) }
        ensures unfinished { OnErr result (Lacks W.contents bytes.now self.old self.new) }
        ensures no_fewer_faults { self.old.faults ≤ self.new.faults }
        ensures cause { OnErr result (Rose self.old.faults self.new.faults) }
        ensures counts { CountsFault result self.old.faults self.new.faults }
    {
        let answer = write_through(&mut self.inner, bytes);
        self.counted(answer)
    }

    fn faults(&self) -> u64 {
        self.faults
    }
}
