//! A chooser by draws.

ghost use Rattle.std.specs.Prelude.{◌≡◌};
ghost use Rattle.rand_pcg.specs.Lcg.{started, increment_of};
ghost use Rattle.rand_pcg.specs.Pcg.{multiplier_64};

use crate::chooser::Chooser;
use rand_core::utils::NextWord;
use rand_pcg::Pcg32;

/// Draws a number for each sector.
#[derive(Drop)]
pub struct Mixed {
    pub draws: Pcg32,
}

/// The stream of the generator.
const STREAM: u64 = 3;

impl Mixed {
    pub fn new(number: u64) -> Mixed
        ensures { result.draws ≡ started 64 multiplier_64 number (increment_of 64 3) }
    {
        Mixed {
            draws: Pcg32::new(number, STREAM),
        }
    }
}

impl Chooser for Mixed {
    ghost use Rattle.vd_faults.specs.Choices.{drawn};
    ghost use Rattle.rand_pcg.specs.Pcg.{pcg32};

    ghost choice = { λ mixed sector count. (drawn (pcg32 mixed.draws).0 count, record { draws = (pcg32 mixed.draws).1 }) };

    fn choose(&mut self, _: u64, count: u64) -> u64 {
        u64::from(self.draws.next_word()) % count.max(1)
    }
}
