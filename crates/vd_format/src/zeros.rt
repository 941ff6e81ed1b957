//! Sectors of zeros.

ghost use Rattle.std.specs.Prelude.{◌≡◌, length, replicate};
ghost use Rattle.vd_format.specs.Background.{zero_sector};

use vd_law::entry::Sector;

/// The sector of zeros.
pub fn zero() -> Sector
    ensures { result ≡ zero_sector }
{
    Sector::filled(0)
}

/// Makes all sectors zeros.
pub fn clear(sectors: &mut [Sector])
    ensures { sectors.new ≡ replicate (length sectors.old) zero_sector }
{
    sectors.fill(zero());
}
