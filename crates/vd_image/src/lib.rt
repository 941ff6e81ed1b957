//! What a store's log leaves after a crash, and what an image of a disk says.
//!
//! The functions here do nothing: their contracts are the laws on which proofs above stand.
#![tactic(auto)]

ghost use Rattle.std.specs.Prelude.{ℕ, ◌≡◌, ◌<◌, ◌≤◌, ◌⊎◌, ◌↔◌, List, length, Some, slice_get, true, false};
ghost use Rattle.std.specs.List.{Contains};
ghost use Rattle.vd_law.specs.declared.entry.Sector.{Sector};
ghost use Rattle.vd_law.specs.Entries.{Entry};
ghost use Rattle.vd_law.specs.Contents.{may};
ghost use Rattle.vd_format.specs.Background.{background, zero_sector};
ghost use Rattle.vd_format.specs.Headers.{IsValid};
ghost use Rattle.vd_format.specs.Records.{AreFacts};
ghost use Rattle.vd_image.specs.Log.{Writes, May, IsImage};
ghost use Rattle.vd_image.specs.Image.{Header, Format, Layout, Image, geometry_of, IsMapping, IsRecord, HasNoLater, IsSound, DiskHas, IsApart};
ghost use Rattle.vd_image.specs.Layouts.{layout_of, FitsInStore};
ghost use Rattle.vd_image.specs.Decoders.{Entry as MapEntry, Said, IsEntry, record_of, this_version, shape_of, mapping_in, record_in, format_of};
ghost use Rattle.vd_image.specs.CrashImages.{sectors_or, IsCrashImage};
ghost use Rattle.vd_image.specs.Made.{made_image, small_header};
ghost use Rattle.vd_format.specs.Layouts.{store_need};
ghost use Rattle.vd_image.specs.Openings.{OpeningRefusal, RefusesOpening, IsThisVersion, Opens};

/// A crash may leave a content in a sector exactly where the law's list has it, and some image it may always leave.
pub fn may_is_exact()
    ensures some { (held : ℕ → Sector) (log : List Entry) → (image : Image) × IsImage held log image }
    ensures exact { (start : List Sector) (held : ℕ → Sector) (log : List Entry) (s : ℕ) (v : Sector) → slice_get start s ≡ Some (held s)
        → Contains (may start log s) v ↔ May held log s v }
{}

/// An image that a crash may leave, as a list, is one that it may leave sector by sector, whatever stands past the store's end.
pub fn image_is_left()
    ensures { (start : List Sector) (held : ℕ → Sector) (log : List Entry) (image : List Sector) (other : Sector)
        → ((s : ℕ) → held s ≡ sectors_or other start s)
        → ((i s : ℕ) (v : Sector) → Writes log i s v → s < length start) → IsCrashImage start log image → IsImage held log (sectors_or other image) }
{}

/// The disk of a sound image has one content in each of its sectors.
pub fn disk_is_one()
    ensures some { (f : Format) (l : Layout) (base : ℕ → Sector) (zeros : Sector) (image : Image) → IsSound f l image → (s : ℕ)
        → l.chunk_of (l.block_of s) < l.chunks → (v : Sector) × DiskHas f l base zeros image s v }
    ensures one { (f : Format) (l : Layout) (base : ℕ → Sector) (zeros : Sector) (image : Image) (s : ℕ) (u v : Sector)
        → DiskHas f l base zeros image s u → DiskHas f l base zeros image s v → u ≡ v }
{}

/// A store's content opens exactly where it is refused for nothing, and it is refused for one thing alone.
pub fn sound_is_not_refused()
    ensures not_both { (sectors : ℕ) (image : Image) (h : Header) (r : OpeningRefusal) → Opens sectors image h → RefusesOpening sectors image r → ⊥ }
    ensures one { (sectors : ℕ) (image : Image) (r q : OpeningRefusal) → RefusesOpening sectors image r → RefusesOpening sectors image q → r ≡ q }
    ensures either { (sectors : ℕ) (image : Image) → IsThisVersion image
        → ((h : Header) × Opens sectors image h) ⊎ ((r : OpeningRefusal) × RefusesOpening sectors image r) }
    // What the laws call sound, by the numbers of some header, is what opens and has no record of a later generation.
    ensures sound { (g : Header) (sectors : ℕ) (image : Image) → g.version ≡ this_version → store_need g ≤ sectors
        → IsSound (format_of g) (layout_of g) image
        → (h : Header) × (geometry_of h ≡ geometry_of g) × Opens sectors image h × HasNoLater (format_of h) (layout_of h) image h.generation }
    ensures opens { (sectors : ℕ) (image : Image) (h : Header) → Opens sectors image h → HasNoLater (format_of h) (layout_of h) image h.generation
        → IsSound (format_of h) (layout_of h) image }
{}

/// The grammar of entries and of records in bytes is that of the mappings and records which they stand for.
pub fn grammar_is_that_of_the_bytes()
    ensures entries { (h : Header) (chunk : ℕ) (e : MapEntry) → IsValid h
        → IsEntry (shape_of h) chunk e ↔ IsMapping (layout_of h) chunk (mapping_in h chunk e) }
    ensures records { (h : Header) (sector : Sector) (r : Said) → IsValid h → record_of sector ≡ Some r → r.well_formed ≡ true
        → AreFacts (shape_of h) r.facts ↔ IsRecord (layout_of h) (record_in h r) }
{}

/// The parts of a store with a valid header lie apart, and inside the sectors that it needs.
pub fn parts_lie_apart()
    ensures apart { (h : Header) → IsValid h → IsApart (layout_of h) }
    ensures inside { (h : Header) → IsValid h → FitsInStore (layout_of h) (store_need h) }
{}

/// A new image, of its header and zeros everywhere else, opens, and its disk is the base below `tracked` and zeros from there on.
pub fn new_image_opens()
    ensures opens { (h : Header) → IsValid h → h.version ≡ this_version → Opens (store_need h) (made_image h) h }
    ensures no_later { (h : Header) → HasNoLater (format_of h) (layout_of h) (made_image h) h.generation }
    ensures disk { (h : Header) (base : ℕ → Sector) (s : ℕ) (v : Sector) → IsValid h
        → DiskHas (format_of h) (layout_of h) base zero_sector (made_image h) s v → v ≡ background base zero_sector h.tracked s }
    ensures some { (h : Header) × IsValid h × (h.version ≡ this_version) }
{}

/// An image of 16 blocks, worked by hand: its map is sector 3, its slots are sectors 4 to 7, storage begins at sector 8 and ends before 104; guest
/// sector 41 stands in storage chunk 1 at sector 49; and the entry with storage field 2 and mask 1 has block 4 of chunk 1 in storage chunk 1.
pub fn small_image_is_as_worked()
    ensures map { (layout_of small_header).map_at 3 ≡ 3 }
    ensures slots { ((layout_of small_header).slot_at 0 ≡ 4) × ((layout_of small_header).slot_at 3 ≡ 7) }
    ensures storage { ((layout_of small_header).place 0 0 ≡ 8) × (store_need small_header ≡ 104) }
    ensures place { (layout_of small_header).place 1 41 ≡ 49 }
    ensures entry { let m = mapping_in small_header 1 (record { storage = 2; zeros = false; mask = 1 }) in
        (m.storage ≡ Some 1) × (m.has 4 ≡ true) × (m.has 5 ≡ false) × (m.has 0 ≡ false) }
{}
