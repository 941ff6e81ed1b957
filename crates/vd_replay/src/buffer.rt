//! The sectors into which areas of a store are read.

ghost use Rattle.std.specs.Prelude.{◌≡◌, IfOk, length};

use std::alloc::Global;
use std::marker::Model;
use vd_law::entry::{NoMemory, Sector};

/// 2,048 sectors, the most that one ticket reads.
#[derive(Drop)]
pub struct ReadBuffer {
    pub(crate) sectors: Vec<Sector>,
}

impl Model for ReadBuffer {
    ghost use Rattle.std.specs.Prelude.{◌≡◌, List, length};
    ghost use Rattle.vd_law.specs.declared.entry.Sector.{Sector};

    ghost Value = { List Sector };

    ghost view = { λ b. b.sectors.items };

    ghost invariant = { λ b. length b.sectors.items ≡ 2048 };
}

impl ReadBuffer {
    /// Sectors of zeros. No other call takes memory.
    pub fn new(alloc: Global) -> Result<ReadBuffer, NoMemory>
        ensures { IfOk result (λ buffer. length buffer ≡ 2048) }
    {
        Ok(ReadBuffer {
            sectors: vec![in alloc; Sector::filled(0); 2048]?,
        })
    }
}
