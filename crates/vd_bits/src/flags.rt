//! A row of flags, 64 to a word.

ghost use Rattle.std.specs.Prelude.{◌≡◌, ℕ, ◌+◌, ◌*◌, ◌/◌, ◌%◌, ◌^◌, ◌<◌, ◌≤◌, ◌++◌, false, true, Some, length, take, drop, replicate, IfOk, IfSome, IfNone, slice_get, slice_set};
ghost use Rattle.vd_bits.specs.Masks.{mask_of, bits_of};
ghost use Rattle.vd_bits.specs.Marks.{IsLowest};

use std::alloc::Global;
use std::marker::Model;
use vd_law::entry::NoMemory;

/// Its flags are up or down, and bits past the last flag are 0.
#[derive(Drop)]
pub struct Flags {
    words: Vec<u64>,
    len: u64,
}

impl Model for Flags {
    ghost use Rattle.std.specs.Prelude.{List, Bool};

    ghost Value = { List Bool };

    ghost use Rattle.vd_bits.specs.Rows.{row, IsRow};

    ghost view = { λ flags. row flags.words.items flags.len };

    ghost invariant = { λ flags. IsRow flags.words.items flags.len };
}

/// The number whose lowest `count` bits are 1 and the others 0.
fn ones(count: u64) -> u64
    requires some { 0 < count }
    requires most { count ≤ 64 }
    ensures { result + 1 ≡ 2 ^ count }
{
    u64::MAX >> (64 - count)
}

impl Flags {
    /// A row of `len` flags, all down.
    pub fn new(alloc: Global, len: u64) -> Result<Flags, NoMemory>
        ensures { IfOk result (λ flags. flags ≡ replicate len false) }
    {
        let words = vec![in alloc; 0; len.div_ceil(64) as usize]?;
        Ok(Flags { words, len })
    }

    pub fn len(&self) -> u64
        ensures { result ≡ length self.now }
    {
        self.len
    }

    pub fn get(&self, at: u64) -> bool
        requires { at < length self.now }
        ensures { slice_get self.now at ≡ Some result }
    {
        self.part(at, 1) == 1
    }

    pub fn put(&mut self, at: u64, up: bool)
        requires { at < length self.old }
        ensures { self.new ≡ slice_set self.old at up }
    {
        self.put_part(at, 1, up as u64);
    }

    /// The lowest flag that is up, from place `from` on and in its word.
    pub fn lowest_from(&self, from: u64) -> Option<u64>
        ensures found { IfSome result (IsLowest self.now from) }
        ensures word { IfSome result (λ at. at / 64 ≡ from / 64) }
        ensures none { IfNone result ((at : ℕ) → from ≤ at → at / 64 ≡ from / 64 → at < length self.now → slice_get self.now at ≡ Some false) }
    {
        let word = *self.words.get((from / 64) as usize)?;
        let rest = word >> (from % 64);
        if rest == 0 {
            None
        } else {
            Some(from + rest.trailing_zeros() as u64)
        }
    }

    /// The mask of the `count` flags from place `at` on, which stand in one word.
    pub fn part(&self, at: u64, count: u64) -> u64
        requires some { 0 < count }
        requires one_word { at % 64 + count ≤ 64 }
        requires inside { at + count ≤ length self.now }
        ensures { result ≡ mask_of (take count (drop at self.now)) }
    {
        self.words[(at / 64) as usize] >> (at % 64) & ones(count)
    }

    /// Makes the `count` flags from place `at` on, which stand in one word, those of the mask.
    pub fn put_part(&mut self, at: u64, count: u64, mask: u64)
        requires some { 0 < count }
        requires one_word { at % 64 + count ≤ 64 }
        requires inside { at + count ≤ length self.old }
        requires fits { mask < 2 ^ count }
        ensures { self.new ≡ take at self.old ++ bits_of count mask ++ drop (at + count) self.old }
    {
        let word = &mut self.words[(at / 64) as usize];
        let shift = at % 64;
        *word = *word & !(ones(count) << shift) | mask << shift;
    }

    /// Puts all flags up.
    pub fn raise(&mut self)
        ensures { self.new ≡ replicate (length self.old) true }
    {
        self.words.fill(u64::MAX);
        let rest = self.len % 64;
        if rest > 0 {
            let last = self.words.len() - 1;
            self.words[last] = ones(rest);
        }
    }

    pub fn copy_from(&mut self, other: &Flags)
        requires { length self.old ≡ length other.now }
        ensures { self.new ≡ other.now }
    {
        self.words.copy_from_slice(&other.words);
    }
}
