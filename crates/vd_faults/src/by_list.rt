//! A chooser by a list.

ghost use Rattle.std.specs.Prelude.{◌≡◌};
ghost use Rattle.vd_faults.specs.Choices.{listed};

use crate::chooser::Chooser;
use std::marker::Model;

/// Answers for a sector the number of the first pair that has it, and 0 where none has.
#[derive(Drop)]
pub struct ByList {
    pairs: Vec<(u64, u64)>,
}

impl Model for ByList {
    ghost use Rattle.std.specs.Prelude.{ℕ, List};

    ghost Value = { List (ℕ × ℕ) };

    ghost view = { λ l. l.pairs.items };
}

impl ByList {
    pub fn new(pairs: Vec<(u64, u64)>) -> ByList
        ensures { result ≡ pairs.items }
    {
        ByList { pairs }
    }
}

impl Chooser for ByList {
    ghost use Rattle.vd_faults.specs.Choices.{listed};

    ghost choice = { λ pairs sector count. (listed pairs sector, pairs) };

    fn choose(&mut self, sector: u64, _: u64) -> u64 {
        number_of(self.pairs.as_slice(), sector)
    }
}

fn number_of(pairs: &[(u64, u64)], sector: u64) -> u64
    ensures { result ≡ listed pairs.now sector }
{
    for (place, number) in pairs {
        if *place == sector {
            return *number;
        }
    }
    0
}
