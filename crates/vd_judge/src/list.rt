//! A disk in memory.

ghost use Rattle.std.specs.Prelude.{◌≡◌, ◌<◌, length, slice_get, Some};

use crate::flat::Flat;
use vd_law::entry::Sector;

/// The disk of these sectors.
#[derive(Clone, Copy, Drop)]
pub struct List<'a>(pub &'a [Sector]);

impl Flat for List<'_> {
    ghost disk = { λ list. list.0.now };

    fn sectors(&self) -> u64 {
        self.0.len() as u64
    }

    fn sector(&self, s: u64) -> Sector {
        self.0[s as usize]
    }
}
