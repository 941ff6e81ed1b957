//! Crash images: in each sector one of the contents that a crash may leave there.

ghost use Rattle.std.specs.Prelude.{◌≡◌, ℕ, ◌+◌, ◌≤◌, ◌<◌, ◌^◌, List, length, Some, slice_get, slice_set, if◌then◌else◌};
ghost use Rattle.vd_law.specs.declared.entry.Sector.{Sector as AnySector};
ghost use Rattle.vd_law.specs.Entries.{past};
ghost use Rattle.vd_law.specs.Contents.{sector_in, issued_contents, versions};
ghost use Rattle.vd_faults.specs.declared.versions.Versions as declared;
ghost use Rattle.vd_faults.specs.Choices.{asked, answer_at, contents_at, IsChosen};
ghost use Rattle.vd_faults.specs.Versions.{changed_if, one_more, counts_in, count_of, after_choice, laid, GoesOnLaying};
ghost use Rattle.vd_faults.specs.Traced.{IsTracedTape};

use crate::chooser::Chooser;
use crate::tape::Tape;
use crate::versions::{Step, Versions, count, step_of};
use vd_law::entry::Sector;

/// The version that the chooser leaves in a sector; its writes are counted again from here.
fn choice<C: Chooser>(versions: Versions, s: u64, chooser: &mut C) -> Versions
    requires firm { versions.chosen ≤ versions.written }
    requires short { versions.written < 2 ^ 63 }
    ensures chosen { result ≡ after_choice versions (C.choice chooser.old s (count_of versions)).0 }
    ensures chooser { chooser.new ≡ (C.choice chooser.old s (count_of versions)).1 }
{
    let later = versions.written - versions.chosen;
    let number = chooser.choose(s, later + 1).min(later);
    Versions {
        written: 0,
        chosen: versions.chosen + number,
    }
}

/// Asks the chooser for each sector, in rising order.
fn choose_all<C: Chooser>(all: &mut Vec<Versions>, chooser: &mut C)
    requires firm { (s : ℕ) (v : declared.Versions) → slice_get all.old.items s ≡ Some v → (v.chosen ≤ v.written) × (v.written < 2 ^ 63) }
    ensures size { length all.new.items ≡ length all.old.items }
    ensures chooser { chooser.new ≡ asked C.choice chooser.old (counts_in all.old.items) (length all.old.items) }
    ensures each { (s : ℕ) (v : declared.Versions) → slice_get all.old.items s ≡ Some v →
        slice_get all.new.items s ≡ Some (after_choice v (answer_at C.choice chooser.old (counts_in all.old.items) s)) }
{
    for s in 0..all.len() {
        all[s] = choice(all[s], s as u64, chooser);
    }
}

/// Puts the k-th sector of a content into the image, if it is the chosen one.
fn put(image: &mut Vec<Sector>, at: usize, content: &[Sector], k: usize, chosen: bool)
    requires place { at < length image.old.items }
    requires sector { k < length content.now }
    ensures { (c : AnySector) → slice_get content.now k ≡ Some c → image.new.items ≡ (if chosen then slice_set image.old.items at c else image.old.items) }
{
    if chosen {
        image[at] = content[k];
    }
}

/// Counts one more write of these sectors, and puts it into the image where it is the chosen one.
fn lay_content(image: &mut Vec<Sector>, all: &mut Vec<Versions>, first: u64, content: &[Sector])
    requires versions { first + length content.now ≤ length all.old.items }
    requires sectors { first + length content.now ≤ length image.old.items }
    ensures size { length all.new.items ≡ length all.old.items }
    ensures image_size { length image.new.items ≡ length image.old.items }
    ensures versions { (s : ℕ) → slice_get all.new.items s ≡ changed_if one_more (sector_in first content.now s) (slice_get all.old.items s) }
    ensures image { (s : ℕ) → slice_get image.new.items s ≡ laid (slice_get all.old.items s) (sector_in first content.now s) (slice_get image.old.items s) }
{
    let from = first as usize;
    for k in 0..content.len() {
        let versions = all[from + k].with_write();
        all[from + k] = versions;
        let chosen = versions.written == versions.chosen;
        put(image, from + k, content, k, chosen);
    }
}

/// Goes on with the event at this place.
fn lay_event(image: &mut Vec<Sector>, all: &mut Vec<Versions>, tape: &Tape, i: u64)
    requires place { i < length tape.now.log.entries }
    requires short { length tape.now.log.entries < 2 ^ 64 }
    requires traced { IsTracedTape (length all.old.items) tape.now }
    requires same { length image.old.items ≡ length all.old.items }
    ensures size { length all.new.items ≡ length all.old.items }
    ensures image_size { length image.new.items ≡ length image.old.items }
    ensures lays { (start : List AnySector) (target : ℕ → ℕ) →
        GoesOnLaying start target tape.now.log.entries i all.old.items image.old.items all.new.items image.new.items }
{
    match step_of(tape.log().event(i)) {
        Step::Begins { first, content } => lay_content(image, all, first, content),
        Step::IsDone => {}
        Step::Other => {}
    }
}

/// Makes the image of the content at the start.
fn lay_all(image: &mut Vec<Sector>, all: &mut Vec<Versions>, tape: &Tape)
    requires traced { IsTracedTape (length all.old.items) tape.now }
    requires same { length image.old.items ≡ length all.old.items }
    ensures size { length all.new.items ≡ length all.old.items }
    ensures image_size { length image.new.items ≡ length image.old.items }
    ensures image { (target : ℕ → ℕ) → ((s : ℕ) (v : declared.Versions) → slice_get all.old.items s ≡ Some v → v ≡ record { written = 0; chosen = target s }) →
        (s : ℕ) → s < length image.old.items → target s ≤ length (issued_contents (past tape.now.log.entries) s) →
        slice_get image.new.items s ≡ slice_get (versions image.old.items (past tape.now.log.entries) s) (target s) }
{
    for i in 0..tape.len() {
        lay_event(image, all, tape, i);
    }
}

/// Makes of the content at the start an image in which each sector has that of the contents which a crash may leave there, the
/// firm one first, that the chooser chooses. It is asked for each sector in rising order. The versions are room, one for each
/// sector, whatever they were. Takes time for each sector and for each sector that was written.
pub fn leave_image<C: Chooser>(
    image: &mut Vec<Sector>,
    all: &mut Vec<Versions>,
    tape: &Tape,
    chooser: &mut C,
)
    requires traced { IsTracedTape (length all.old.items) tape.now }
    requires short { length tape.now.log.entries < 2 ^ 63 }
    requires same { length image.old.items ≡ length all.old.items }
    ensures size { length all.new.items ≡ length all.old.items }
    ensures image { (held : List AnySector) →
        IsChosen C.choice chooser.old (record { start = image.old.items; log = tape.now.log.entries; held = held }) image.new.items }
    ensures asked { (held : List AnySector) →
        chooser.new ≡ asked C.choice chooser.old (contents_at (record { start = image.old.items; log = tape.now.log.entries; held = held })) (length image.old.items) }
{
    count(all, tape);
    choose_all(all, chooser);
    lay_all(image, all, tape);
}
