//! The blocks that each pass holds: to itself, or shared with other passes.

ghost use Rattle.std.specs.Prelude.{◌≡◌, ℕ, ◌<◌, ◌≤◌, ◌↔◌, IsTrue, None, Some, IfOk, IfErr, OnOk, OnErr, length, replicate, slice_get, slice_set};
ghost use Rattle.vd_regions.specs.Holding.{Clash, Hinders, IsFirstHindrance, AreApart};

use std::alloc::Global;
use std::marker::Model;
use vd_law::entry::NoMemory;

/// How a pass holds its blocks.
#[derive(Clone, Copy, Debug, PartialEq, Eq, Drop)]
pub enum Mode {
    Shared,
    Own,
}

/// The lowest other pass that holds a block of the range, where that pass or the asker wants it as its own.
#[derive(Clone, Copy, Debug, PartialEq, Eq, Drop)]
pub struct Busy {
    pub by: u32,
}

/// The blocks from `first` to `last`, both among them.
#[derive(Clone, Copy, Drop)]
pub struct Region {
    pub first: u64,
    pub last: u64,
    pub mode: Mode,
}

impl Region {
    fn clashes(&self, other: &Region) -> bool
        ensures { IsTrue result ↔ Clash self.now other.now }
    {
        self.first <= other.last
            && other.first <= self.last
            && (self.mode == Mode::Own || other.mode == Mode::Own)
    }
}

/// What each pass holds, which clauses see as a list of regions with a place for each pass.
#[derive(Drop)]
pub struct Regions {
    held: Vec<Option<Region>>,
}

impl Model for Regions {
    ghost use Rattle.std.specs.Prelude.{List, Option};
    ghost use Rattle.vd_regions.specs.declared.regions.Region.{Region};
    ghost use Rattle.vd_regions.specs.Holding.{IsHolding};

    ghost Value = { List (Option Region) };

    ghost view = { λ regions. regions.held.items };

    ghost invariant = { λ regions. IsHolding regions.held.items };
}

impl Regions {
    /// No pass holds anything. There are 1 to 64 passes.
    pub fn new(alloc: Global, passes: u32) -> Result<Regions, NoMemory>
        requires some { 0 < passes }
        requires most { passes ≤ 64 }
        ensures { IfOk result (λ regions. regions ≡ replicate passes None) }
    {
        let held = vec![in alloc; None; passes as usize]?;
        Ok(Regions { held })
    }

    /// Asks the blocks from `first` to `last` for a pass that holds nothing.
    pub fn ask(&mut self, pass: u32, first: u64, last: u64, mode: Mode) -> Result<(), Busy>
        requires nothing { slice_get self.old pass ≡ Some None }
        requires range { first ≤ last }
        ensures busy { IfErr result (λ busy. IsFirstHindrance self.old pass (record { first = first; last = last; mode = mode }) busy.by) }
        ensures unchanged { OnErr result (self.new ≡ self.old) }
        ensures free { OnOk result ((by : ℕ) → Hinders self.old pass (record { first = first; last = last; mode = mode }) by → ⊥) }
        ensures held { OnOk result (self.new ≡ slice_set self.old pass (Some (record { first = first; last = last; mode = mode }))) }
        ensures apart { AreApart self.new }
    {
        let wanted = Region { first, last, mode };
        for (by, held) in self.held.iter().enumerate() {
            if let Some(region) = held
                && region.clashes(&wanted)
            {
                return Err(Busy { by: by as u32 });
            }
        }
        self.held[pass as usize] = Some(wanted);
        Ok(())
    }

    /// Lets go what a pass holds.
    pub fn free(&mut self, pass: u32)
        requires { pass < length self.old }
        ensures held { self.new ≡ slice_set self.old pass None }
        ensures apart { AreApart self.new }
    {
        self.held[pass as usize] = None;
    }
}
