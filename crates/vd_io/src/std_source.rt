//! A source over a reader of std.

ghost use Rattle.std.specs.Prelude.{◌≡◌, ◌≤◌, IfOk, OnErr, drop, length};
ghost use Rattle.std.specs.Io.KnownBytes.{ReadConsumes};
ghost use Rattle.vd_io.specs.Streams.{Reads};
ghost use Rattle.vd_io.specs.Told.{AlwaysKnown, CountsFault, HasKnownBytes, bytes_of};
ghost use Rattle.vd_law.specs.Counts.{Rose};

use crate::Failed;
use crate::source::Source;
use std::io::{ErrorKind, Read};
use std::marker::Model;

/// The most bytes that one read asks the reader for.
const PIECE: usize = 8192;

/// A source over a reader. It tells its bytes where every reader of this type does, and counts the reads that failed.
#[derive(Drop)]
pub struct StdSource<R> {
    inner: R,
    faults: u64,
}

impl<R> Model for StdSource<R> {
    ghost use Rattle.vd_io.specs.Told.{Over};

    ghost Value = { Over R };

    ghost view = { λ s. record { inner = s.inner; faults = s.faults } };
}

/// Reads once, and again where a signal interrupted the read, which then took nothing.
fn read_through<R: Read>(inner: &mut R, room: &mut [u8]) -> Result<usize, Failed>
    ensures within { IfOk result (λ n. n ≤ length room.new) }
    ensures bytes { ReadConsumes (R.remaining inner.old) (R.remaining inner.new) result room.new }
{
    for _ in 0..u64::MAX {
        match inner.read(room) {
            Ok(count) => return Ok(count),
            Err(error) => {
                if error.kind() != ErrorKind::Interrupted {
                    return Err(Failed);
                }
            }
        }
    }
    Err(Failed)
}

/// Puts bytes of the reader at the front of the room. A reader may write to all that it is lent, so it is lent a
/// piece of its own.
fn read_piece<R: Read>(inner: &mut R, room: &mut [u8]) -> Result<usize, Failed>
    ensures within { IfOk result (λ n. n ≤ length room.new) }
    ensures bytes { ReadConsumes (R.remaining inner.old) (R.remaining inner.new) result room.new }
    ensures others { IfOk result (λ n. drop n room.new ≡ drop n room.old) }
    ensures failed { OnErr result (room.new ≡ room.old) }
{
    let mut piece = [0; PIECE];
    let most = room.len().min(PIECE);
    let count = read_through(inner, &mut piece[..most])?;
    room[..count].copy_from_slice(&piece[..count]);
    Ok(count)
}

impl<R> StdSource<R> {
    /// A source over this reader.
    pub fn new(inner: R) -> StdSource<R>
        ensures { result ≡ record { inner = inner; faults = 0 } }
    {
        StdSource { inner, faults: 0 }
    }
}

impl<R: Read> Source for StdSource<R> {
    ghost tells = { λ _. AlwaysKnown R.remaining };

    ghost rest = { bytes_of R.remaining };

    ghost faults = { λ s. s.faults };

    fn read(&mut self, room: &mut [u8]) -> Result<usize, Failed>
        ensures within { IfOk result (λ n. n ≤ length room.new) }
        ensures known { HasKnownBytes R.remaining self.old → HasKnownBytes R.remaining self.new }
        ensures bytes { HasKnownBytes R.remaining self.old → Reads result (bytes_of R.remaining self.old) (bytes_of R.remaining self.new) room.old room.new }
        ensures no_fewer_faults { self.old.faults ≤ self.new.faults }
        ensures cause { OnErr result (Rose self.old.faults self.new.faults) }
        ensures counts { CountsFault result self.old.faults self.new.faults }
    {
        match read_piece(&mut self.inner, room) {
            Ok(count) => Ok(count),
            Err(Failed) => {
                self.faults = self.faults.saturating_add(1);
                Err(Failed)
            }
        }
    }

    fn faults(&self) -> u64 {
        self.faults
    }
}
