//! Where the contents of a log stand among its sectors. A comparison costs less than memory that a run touches for the first
//! time, so a content that was told before is found and not put behind the others again.

ghost use Rattle.std.specs.Prelude.{◌≡◌, ℕ, ◌+◌, ◌<◌, ◌≤◌, ◌++◌, [], length, take, replicate, vec_capacity, IfOk, IfSome, IsTrue, ◌↔◌};
ghost use Rattle.std.specs.List.{All};
ghost use Rattle.vd_log.specs.StoredEntries.{content_in, IsAmong, IsOfOneSector, IsShared};

use std::alloc::Global;
use vd_law::entry::{NoMemory, Sector, is_same_content, is_same_sector};

/// `count` sectors from the place `start` on.
#[derive(Clone, Copy, Drop)]
pub struct Stretch {
    pub start: usize,
    pub count: usize,
}

/// The stretch of no sectors.
const NOTHING: Stretch = Stretch { start: 0, count: 0 };

/// How many contents are remembered.
const PLACES: usize = 4096;

/// How many sectors are remembered of which there are runs.
const RUNS: usize = 256;

/// How many copies of a sector a run has.
const RUN: usize = 64;

/// How many sectors all runs may have beyond those that entries tell.
pub const SPARE: usize = 16384;

/// Which contents stand where among the sectors.
#[derive(Drop)]
pub struct Shared {
    /// The sectors of the last Write that was asked which no Issue has told yet.
    pub next: Stretch,
    /// Contents, each at the place by which it is found.
    pub places: Vec<Stretch>,
    /// Copies of one sector, at the place of its first byte.
    pub runs: Vec<Stretch>,
    /// How many sectors runs may still have.
    pub spare: usize,
}

impl Shared {
    /// What is remembered before anything was told.
    pub fn new(alloc: Global) -> Result<Shared, NoMemory>
        ensures shared { IfOk result (IsShared []) }
        ensures spare { IfOk result (λ shared. shared.spare ≡ 16384) }
    {
        Ok(Shared {
            next: NOTHING,
            places: Vec::from_elem(alloc, NOTHING, PLACES)?,
            runs: Vec::from_elem(alloc, NOTHING, RUNS)?,
            spare: SPARE,
        })
    }

    /// Remembers nothing any more.
    pub fn clear(&mut self)
        requires places { length self.old.places.items ≡ 4096 }
        requires runs { length self.old.runs.items ≡ 256 }
        ensures shared { IsShared [] self.new }
        ensures spare { self.new.spare ≡ 16384 }
    {
        self.next = NOTHING;
        self.places.fill(NOTHING);
        self.runs.fill(NOTHING);
        self.spare = SPARE;
    }
}

/// The first bytes of a content's sector, as a number.
fn head(content: &[Sector], at: usize) -> u64 {
    match content.get(at) {
        Some(sector) => match sector.bytes.first_chunk::<8>() {
            Some(bytes) => u64::from_le_bytes(*bytes),
            None => 0,
        },
        None => 0,
    }
}

/// The place at which a content is remembered, by how its first two sectors begin: that of a front of it is the same.
fn place_of(content: &[Sector]) -> usize
    ensures { result < 4096 }
{
    let mixed = head(content, 0)
        .wrapping_mul(31)
        .wrapping_add(head(content, 1))
        .wrapping_mul(0x9e37_79b9_7f4a_7c15);
    ((mixed >> 32) % 4096) as usize
}

pub fn stretch_of<'a>(sectors: &'a [Sector], stretch: Stretch) -> &'a [Sector]
    requires { IsAmong (length sectors.now) stretch }
    ensures { result.now ≡ content_in sectors.now stretch }
{
    &sectors[stretch.start..stretch.start + stretch.count]
}

/// Puts a content behind the sectors.
fn keep(sectors: &mut Vec<Sector>, content: &[Sector]) -> Stretch
    requires { length sectors.old.items + length content.now ≤ vec_capacity sectors.old }
    ensures place { result.start ≡ length sectors.old.items }
    ensures count { result.count ≡ length content.now }
    ensures sectors { sectors.new.items ≡ sectors.old.items ++ content.now }
    ensures room { vec_capacity sectors.old ≤ vec_capacity sectors.new }
{
    let start = sectors.len();
    let _ = sectors.extend_from_slice(content);
    Stretch {
        start,
        count: content.len(),
    }
}

/// The front of a stretch, where it has this content.
fn front_with(sectors: &[Sector], whole: Stretch, content: &[Sector]) -> Option<Stretch>
    requires { IsAmong (length sectors.now) whole }
    ensures start { IfSome result (λ front. front.start ≡ whole.start) }
    ensures count { IfSome result (λ front. front.count ≤ whole.count) }
    ensures content { IfSome result (λ front. content_in sectors.now front ≡ content.now) }
{
    let front = Stretch {
        start: whole.start,
        count: content.len(),
    };
    if front.count <= whole.count && is_same_content(stretch_of(sectors, front), content) {
        Some(front)
    } else {
        None
    }
}

fn are_copies(content: &[Sector], first: &Sector) -> bool
    ensures { IsTrue result ↔ All (λ v. v ≡ first.now) content.now }
{
    content.iter().all(|sector| is_same_sector(sector, first))
}

/// The sector of which a content has copies alone.
fn copied(content: &[Sector]) -> Option<&Sector>
    ensures copies { IfSome result (λ first. content.now ≡ replicate (length content.now) first.now) }
    ensures some { IfSome result (λ first. 0 < length content.now) }
{
    match content.first() {
        Some(first) if are_copies(content, first) => Some(first),
        _ => None,
    }
}

/// The front of a run, where it has as many sectors and they are copies of this one.
fn front_of(sectors: &[Sector], run: Stretch, first: &Sector, count: usize) -> Option<Stretch>
    requires run { IsOfOneSector sectors.now run }
    requires some { 0 < count }
    ensures within { IfSome result (IsAmong (length sectors.now)) }
    ensures content { IfSome result (λ front. content_in sectors.now front ≡ replicate count first.now) }
{
    if count <= run.count && is_same_sector(&sectors[run.start], first) {
        Some(Stretch {
            start: run.start,
            count,
        })
    } else {
        None
    }
}

/// Puts a run of copies of a sector behind the sectors, one by one: a function pays at each call for a local array of them.
fn keep_run(sectors: &mut Vec<Sector>, first: &Sector) -> Stretch
    requires { length sectors.old.items + 64 ≤ vec_capacity sectors.old }
    ensures place { result.start ≡ length sectors.old.items }
    ensures count { result.count ≡ 64 }
    ensures sectors { sectors.new.items ≡ sectors.old.items ++ replicate 64 first.now }
    ensures room { vec_capacity sectors.old ≤ vec_capacity sectors.new }
{
    let run = Stretch {
        start: sectors.len(),
        count: RUN,
    };
    for _ in 0..RUN {
        let _ = sectors.push(*first);
    }
    run
}

/// The place of a run of copies of this sector.
fn run_place(sector: &Sector) -> usize
    ensures { result < 256 }
{
    sector.bytes[0] as usize
}

/// Where copies of one sector stand, where they are the front of a run. Two of them or more begin a run, while runs may have
/// more sectors.
fn share_copies(
    sectors: &mut Vec<Sector>,
    shared: &mut Shared,
    first: &Sector,
    count: usize,
) -> Option<Stretch>
    requires room { length sectors.old.items + shared.old.spare ≤ vec_capacity sectors.old }
    requires shared { IsShared sectors.old.items shared.old }
    requires some { 0 < count }
    ensures content { IfSome result (λ front. content_in sectors.new.items front ≡ replicate count first.now) }
    ensures within { IfSome result (IsAmong (length sectors.new.items)) }
    ensures shared { IsShared sectors.new.items shared.new }
    ensures earlier { take (length sectors.old.items) sectors.new.items ≡ sectors.old.items }
    ensures count { length sectors.new.items + shared.new.spare ≡ length sectors.old.items + shared.old.spare }
    ensures room { vec_capacity sectors.old ≤ vec_capacity sectors.new }
{
    let place = run_place(first);
    let found = front_of(sectors.as_slice(), shared.runs[place], first, count);
    if found.is_some() || count < 2 || count > RUN || shared.spare < RUN {
        return found;
    }
    let run = keep_run(sectors, first);
    shared.runs[place] = run;
    shared.spare -= RUN;
    Some(Stretch {
        start: run.start,
        count,
    })
}

/// Where a content stands that has copies of one sector alone, if a run has as many.
fn share_run(sectors: &mut Vec<Sector>, shared: &mut Shared, content: &[Sector]) -> Option<Stretch>
    requires room { length sectors.old.items + shared.old.spare ≤ vec_capacity sectors.old }
    requires shared { IsShared sectors.old.items shared.old }
    ensures content { IfSome result (λ front. content_in sectors.new.items front ≡ content.now) }
    ensures within { IfSome result (IsAmong (length sectors.new.items)) }
    ensures shared { IsShared sectors.new.items shared.new }
    ensures earlier { take (length sectors.old.items) sectors.new.items ≡ sectors.old.items }
    ensures count { length sectors.new.items + shared.new.spare ≡ length sectors.old.items + shared.old.spare }
    ensures room { vec_capacity sectors.old ≤ vec_capacity sectors.new }
{
    match copied(content) {
        Some(first) => share_copies(sectors, shared, first, content.len()),
        None => None,
    }
}

/// Where the sectors have a content: at the front of the last one that was remembered at its place, or else behind the others, and
/// it is remembered there.
fn share_front(sectors: &mut Vec<Sector>, shared: &mut Shared, content: &[Sector]) -> Stretch
    requires room { length sectors.old.items + shared.old.spare + length content.now ≤ vec_capacity sectors.old }
    requires shared { IsShared sectors.old.items shared.old }
    ensures content { content_in sectors.new.items result ≡ content.now }
    ensures within { IsAmong (length sectors.new.items) result }
    ensures shared { IsShared sectors.new.items shared.new }
    ensures earlier { take (length sectors.old.items) sectors.new.items ≡ sectors.old.items }
    ensures count { length sectors.new.items + shared.new.spare ≤ length sectors.old.items + shared.old.spare + length content.now }
    ensures room { vec_capacity sectors.old ≤ vec_capacity sectors.new }
{
    let place = place_of(content);
    match front_with(sectors.as_slice(), shared.places[place], content) {
        Some(front) => front,
        None => {
            let kept = keep(sectors, content);
            shared.places[place] = kept;
            kept
        }
    }
}

/// Where the sectors have a content: in a run, or at the front of the last one that was remembered at its place, or else behind
/// the others, and it is remembered there.
pub fn share(sectors: &mut Vec<Sector>, shared: &mut Shared, content: &[Sector]) -> Stretch
    requires room { length sectors.old.items + shared.old.spare + length content.now ≤ vec_capacity sectors.old }
    requires shared { IsShared sectors.old.items shared.old }
    ensures content { content_in sectors.new.items result ≡ content.now }
    ensures within { IsAmong (length sectors.new.items) result }
    ensures shared { IsShared sectors.new.items shared.new }
    ensures earlier { take (length sectors.old.items) sectors.new.items ≡ sectors.old.items }
    ensures count { length sectors.new.items + shared.new.spare ≤ length sectors.old.items + shared.old.spare + length content.now }
    ensures room { vec_capacity sectors.old ≤ vec_capacity sectors.new }
{
    match share_run(sectors, shared, content) {
        Some(front) => front,
        None => share_front(sectors, shared, content),
    }
}

/// Where the sectors have a content: at the front of the next ones, which then go on behind it, or else behind the others.
fn share_rest(sectors: &mut Vec<Sector>, shared: &mut Shared, content: &[Sector]) -> Stretch
    requires room { length sectors.old.items + shared.old.spare + length content.now ≤ vec_capacity sectors.old }
    requires shared { IsShared sectors.old.items shared.old }
    ensures content { content_in sectors.new.items result ≡ content.now }
    ensures within { IsAmong (length sectors.new.items) result }
    ensures shared { IsShared sectors.new.items shared.new }
    ensures earlier { take (length sectors.old.items) sectors.new.items ≡ sectors.old.items }
    ensures count { length sectors.new.items + shared.new.spare ≤ length sectors.old.items + shared.old.spare + length content.now }
    ensures room { vec_capacity sectors.old ≤ vec_capacity sectors.new }
{
    let next = shared.next;
    match front_with(sectors.as_slice(), next, content) {
        Some(front) => {
            shared.next = Stretch {
                start: next.start + front.count,
                count: next.count - front.count,
            };
            front
        }
        None => keep(sectors, content),
    }
}

/// Where the sectors have the content of an Issue: in a run, or at the front of the next ones, which then go on behind it, or else
/// behind the others.
pub fn share_next(sectors: &mut Vec<Sector>, shared: &mut Shared, content: &[Sector]) -> Stretch
    requires room { length sectors.old.items + shared.old.spare + length content.now ≤ vec_capacity sectors.old }
    requires shared { IsShared sectors.old.items shared.old }
    ensures content { content_in sectors.new.items result ≡ content.now }
    ensures within { IsAmong (length sectors.new.items) result }
    ensures shared { IsShared sectors.new.items shared.new }
    ensures earlier { take (length sectors.old.items) sectors.new.items ≡ sectors.old.items }
    ensures count { length sectors.new.items + shared.new.spare ≤ length sectors.old.items + shared.old.spare + length content.now }
    ensures room { vec_capacity sectors.old ≤ vec_capacity sectors.new }
{
    match share_run(sectors, shared, content) {
        Some(front) => front,
        None => share_rest(sectors, shared, content),
    }
}
