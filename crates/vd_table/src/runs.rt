//! Storage for the chunks of a run, all that need it at once.

ghost use Rattle.std.specs.Prelude.{◌≡◌, ◌⊎◌, ℕ, ◌+◌, ◌<◌, ◌≤◌, None, Some, length, slice_get};
ghost use Rattle.vd_table.specs.Tables.{Has, used_chunks, IsOneToOne};
ghost use Rattle.vd_table.specs.Runs.{lacking, TakesOne, TakesRun};

use crate::table::Table;

impl Table {
    /// How many of the `count` chunks from `from` on have no storage.
    pub fn lacking(&self, from: u32, count: u32) -> u32
        requires inside { from + count ≤ length self.now.chunks }
        ensures lacking { result ≡ lacking self.now from count }
        ensures one_to_one { IsOneToOne self.now }
    {
        let run = &self.storage[from as usize..from as usize + count as usize];
        run.iter().filter(|p| p.is_none()).count() as u32
    }

    /// Gives the least free storage chunk to each of the `count` chunks from `from` on that has none, in rising order.
    pub fn take_run(&mut self, from: u32, count: u32)
        requires inside { from + count ≤ length self.old.chunks }
        requires enough { used_chunks self.old + lacking self.old from count ≤ self.old.storage }
        ensures takes { TakesRun self.old from count self.new }
        ensures kept { (chunk p : ℕ) → Has self.old chunk p → Has self.new chunk p }
        ensures all { (chunk : ℕ) → from ≤ chunk → chunk < from + count → (p : ℕ) × Has self.new chunk p }
        ensures others { (chunk : ℕ) → (chunk < from) ⊎ (from + count ≤ chunk) → slice_get self.new.chunks chunk ≡ slice_get self.old.chunks chunk }
        ensures chunks { length self.new.chunks ≡ length self.old.chunks }
        ensures storage { self.new.storage ≡ self.old.storage }
        ensures one_to_one { IsOneToOne self.new }
    {
        // Opens the table: that the run ends below 2^32 is among what it keeps.
        let _ = &self.storage;
        for chunk in from..from + count {
            self.take_one(chunk);
        }
    }

    fn take_one(&mut self, chunk: u32)
        requires inside { chunk < length self.old.chunks }
        requires enough { slice_get self.old.chunks chunk ≡ Some None → used_chunks self.old < self.old.storage }
        ensures { TakesOne self.old chunk self.new }
    {
        if self.get(chunk).is_none() {
            self.take(chunk).unwrap();
        }
    }
}
