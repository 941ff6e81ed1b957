//! The levels of flags above those of a set. Each has a flag for each word of the level below, which is up where that word
//! has a flag up. The last level is one word. A search goes over one word on each level, and never over the words between.

ghost use Rattle.std.specs.Prelude.{◌≡◌, ℕ, ◌+◌, ◌*◌, ◌/◌, ◌^◌, ◌<◌, ◌≤◌, Bool, List, false, true, Some, length, replicate, IfOk, IfSome, IfNone, slice_get, slice_set};
ghost use Rattle.vd_bits.specs.Marks.{NoneFrom};
ghost use Rattle.vd_bits.specs.Summaries.{AreLevels, HasWord, IsCovered};
ghost use Rattle.vd_bits.specs.Searches.{HasOne, NoneOf, NoneInWord, IsLowestOf, IsFirstWord};

use crate::flags::Flags;
use std::alloc::Global;
use vd_law::entry::NoMemory;

/// The levels above a set of `pages` numbers of which none is marked.
pub(crate) fn empty_levels(alloc: Global, pages: u64) -> Result<Vec<Flags>, NoMemory>
    ensures { IfOk result (λ above. IsCovered (replicate pages false) above.items) }
{
    let mut above = Vec::new(alloc);
    let mut words = pages;
    while words > 64 {
        words = words.div_ceil(64);
        let level = Flags::new(alloc, words)?;
        if above.push(level).is_err() {
            return Err(NoMemory);
        }
    }
    Ok(above)
}

/// Shows in the levels that all numbers are marked.
pub(crate) fn raise_all(above: &mut [Flags])
    ensures { (marked : List Bool) → IsCovered marked above.old → IsCovered (replicate (length marked) true) above.new }
{
    for level in above.iter_mut() {
        level.raise();
    }
}

/// Shows in the levels that a number is marked. A level that shows its word already ends this, since those above it do too.
pub(crate) fn mark_above(above: &mut [Flags], page: u64)
    requires { HasWord above.old page }
    ensures { (marked : List Bool) → page < length marked → IsCovered marked above.old → IsCovered (slice_set marked page true) above.new }
{
    let mut place = page;
    for level in above.iter_mut() {
        place /= 64;
        if level.get(place) {
            return;
        }
        level.put(place, true);
    }
}

/// Puts a flag down, and answers whether its word then has none up.
pub(crate) fn empties(level: &mut Flags, at: u64) -> bool
    requires { at < length level.old }
    ensures level { level.new ≡ slice_set level.old at false }
    ensures empty { result ≡ true → NoneOf level.new 64 (at / 64) }
    ensures kept { result ≡ false → HasOne level.new 64 (at / 64) }
{
    level.put(at, false);
    level.lowest_from(at / 64 * 64).is_none()
}

/// Shows in the levels that a number is no longer marked, whose word has no other. A level whose word has one ends this.
pub(crate) fn unmark_above(above: &mut [Flags], page: u64)
    requires { HasWord above.old page }
    ensures { (marked : List Bool) → page < length marked → NoneOf (slice_set marked page false) 64 (page / 64) →
        IsCovered marked above.old → IsCovered (slice_set marked page false) above.new }
{
    let mut place = page;
    for level in above.iter_mut() {
        place /= 64;
        if !empties(level, place) {
            return;
        }
    }
}

/// The lowest level that shows a marked number past the word of `from`, in which none is from there on, and the first word
/// of the level below that has one.
pub(crate) fn climb(above: &[Flags], from: u64) -> Option<(usize, u64)>
    ensures level { IfSome result (λ found. found.0 < length above.now) }
    ensures first { (marked : List Bool) → AreLevels marked above.now → NoneInWord marked from →
        IfSome result (λ found. IsFirstWord marked from (64 ^ (found.0 + 1)) found.1) }
    ensures none { (marked : List Bool) → IsCovered marked above.now → NoneInWord marked from → IfNone result (NoneFrom marked from) }
{
    let mut place = from;
    for (level, flags) in above.iter().enumerate() {
        place = place / 64 + 1;
        if let Some(word) = flags.lowest_from(place) {
            return Some((level, word));
        }
    }
    None
}

/// The lowest marked number of a word of the last of these levels, or of the set's flags where there is no level.
pub(crate) fn descend(flags: &Flags, above: &[Flags], word: u64) -> Option<u64>
    requires levels { AreLevels flags.now above.now }
    requires small { word * 64 < 2 ^ 64 }
    requires fits { length flags.now < 2 ^ 64 }
    ensures found { IfSome result (IsLowestOf flags.now (64 ^ (length above.now + 1)) word) }
    ensures none { IfNone result (NoneOf flags.now (64 ^ (length above.now + 1)) word) }
{
    let mut place = word;
    for level in (0..above.len()).rev() {
        place = above[level].lowest_from(place * 64)?;
    }
    flags.lowest_from(place * 64)
}
