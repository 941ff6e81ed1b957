//! The steps of a core and of its metadata's flushes, on its logs and its memory: each keeps safety and the facts.

ghost use Rattle.std.specs.Prelude.{[], List};
ghost use Rattle.vd_law.specs.Entries.{Entry};
ghost use Rattle.vd_crash.specs.facts.Safe.{Opening, IsSafe};
ghost use Rattle.vd_crash.specs.facts.Opened.{IsAtOpening};
ghost use Rattle.vd_crash.specs.flushes.Moves.{IsStep, Keeps, Runs, World, world};
ghost use Rattle.vd_crash.specs.facts.Memory.{Memory};

/// Every image at every moment of every run from an opening is safe.
pub fn every_run_is_safe()
    ensures { (o : Opening) (log : List Entry) (m : Memory) (w : World) → IsAtOpening o log m → Runs o (world log [] m) w → IsSafe o w.log w.history }
{}

/// Safety and all facts hold at opening, and each step keeps them.
pub fn each_step_keeps()
    ensures opening { (o : Opening) (log : List Entry) (m : Memory) → IsAtOpening o log m → Keeps o (world log [] m) }
    ensures step { (o : Opening) (u v : World) → IsStep o u v → Keeps o u → Keeps o v }
{}
