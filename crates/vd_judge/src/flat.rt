//! A flat disk that is told in full.

use vd_law::entry::Sector;

/// A disk of sectors.
pub trait Flat {
    ghost use Rattle.std.specs.Prelude.{◌≡◌, ℕ, ◌<◌, List, length, slice_get, Some};
    ghost use Rattle.vd_law.specs.declared.entry.Sector.{Sector};

    ghost disk: { Self → List Sector };

    fn sectors(&self) -> u64
        ensures { result ≡ length (disk self.now) };

    fn sector(&self, s: u64) -> Sector
        requires { s < length (disk self.now) }
        ensures { slice_get (disk self.now) s ≡ Some result };
}
