//! Reads of the background: the base in the tracked part of the disk, zeros from there on.

ghost use Rattle.std.specs.Prelude.{◌≡◌, ◌<◌, ◌≤◌, [], length, OnOk, OnErr, IfErr};
ghost use Rattle.vd_device.specs.Calls.{next_number};
ghost use Rattle.vd_device.specs.Quiet.{OnlyReadsBase, IsFault};
ghost use Rattle.vd_format.specs.Background.{background_run, count_in_base};

use vd_device::{Base, read_base};
use vd_format::zeros::clear;
use vd_law::entry::Sector;

/// How many of `count` sectors from `first` on lie below both the base's end and `tracked`.
fn sectors_of_base(sectors: u64, tracked: u64, first: u64, count: usize) -> usize
    ensures { result ≡ count_in_base sectors tracked first count }
{
    sectors.min(tracked).saturating_sub(first).min(count as u64) as usize
}

/// Fills `out`, of at most 2,048 sectors, with the background from sector `first` of the disk on, by one read of the base,
/// or none where no sector of it is the base's. The error is the failed ticket's number.
pub fn read_background<B: Base>(
    base: &mut B,
    tracked: u64,
    first: u64,
    out: &mut [Sector],
) -> Result<(), u64>
    requires idle { B.flight base.old [] }
    requires most { length out.old ≤ 2048 }
    ensures quiet { OnlyReadsBase B.Base base.old base.new }
    ensures fault { IfErr result (IsFault B.Base base.old base.new) }
    ensures asked { OnErr result (0 < count_in_base (B.sectors base.old) tracked first (length out.old)) }
    ensures untouched { count_in_base (B.sectors base.old) tracked first (length out.old) ≡ 0 → base.new ≡ base.old }
    ensures number { 0 < count_in_base (B.sectors base.old) tracked first (length out.old) → B.last base.new ≡ next_number (B.last base.old) }
    ensures size { length out.new ≡ length out.old }
    ensures read { OnOk result (B.tells base.new → out.new ≡ background_run (B.content base.new) tracked first (length out.old)) }
{
    let _depth = base.depth();
    let count = sectors_of_base(base.sectors(), tracked, first, out.len());
    let (front, rest) = out.split_at_mut(count);
    clear(rest);
    if count > 0 {
        read_base(base, first, front)?;
    }
    Ok(())
}
