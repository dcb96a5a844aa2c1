//! Words by address.

ghost use Rattle.std.specs.Prelude.{◌≡◌, ◌≢◌, ℕ, ◌*◌, ◌/◌, ◌%◌, MatchOption, IfSome, IfNone, ◌+◌, ◌-◌, ◌<◌, ◌≤◌, ◌^◌, ◌++◌, [], max, length, map, replicate, OnOk, OnErr};
ghost use Rattle.part_words.specs.Extents.{extended, changed_at, IsOpen, IsWithinPart};
ghost use Rattle.part_words.specs.Pages.{IsPageSize};
ghost use Rattle.part_words.specs.Parts.{no_words, word_at, update, extent_of, filled};

use crate::part::Part;
use crate::word::Word;
use std::alloc::{AllocError, Global};
use std::marker::Model;

/// One word for each 16 bytes of address space (this project's own). The words lie in parts, which begin at equal distances,
/// the first of them at `base`; a part is open from its beginning up to some word. They stand in pages of `PAGE`: a page of
/// which no word is written takes 4 bytes, one with a lone word that word's too, and any other those of all its words. Slots
/// that came back stay, for other pages.
#[derive(Debug, Drop)]
pub struct Words<T: Word, const PAGE: usize> {
    base: u64,
    /// The words from the beginning of one part to that of the next.
    width: u64,
    parts: Vec<Part<T, PAGE>>,
}

impl<T: Word, const PAGE: usize> Model for Words<T, PAGE> {
    ghost use Rattle.std.specs.Prelude.{◌<◌};
    ghost use Rattle.part_words.specs.Pages.{IsPageSize};
    ghost use Rattle.part_words.specs.Parts.{Parts};

    ghost Value = { Parts T };

    ghost view = { λ s. record {
      base = s.base;
      width = s.width;
      parts = s.parts.items;
    } };

    ghost invariant = { λ s. record { width : 0 < s.width; page : IsPageSize PAGE } };
}

impl<T: Word, const PAGE: usize> Words<T, PAGE> {
    /// No words. Parts begin at `base`, and every `stride` bytes after it, rounded down to whole words.
    pub fn new(alloc: Global, base: u64, stride: u64) -> Words<T, PAGE>
        requires page { IsPageSize PAGE }
        requires stride { 16 ≤ stride }
        ensures { result ≡ no_words base stride }
    {
        Words {
            base,
            width: stride / 16,
            parts: Vec::new(alloc),
        }
    }

    /// The word of an address, in constant time.
    pub fn get(&self, at: u64) -> T
        requires { IsOpen (extent_of self.now) at }
        ensures { (d : T) → result ≡ word_at self.now d at }
    {
        let (part, place) = place_of((at - self.base) / 16, self.width);
        let words = &self.parts[part];
        words.get(place)
    }

    /// Writes the word of an address, in constant time.
    pub fn set(&mut self, at: u64, value: T)
        requires { IsOpen (extent_of self.old) at }
        ensures word { (d : T) → word_at self.new d ≡ update (word_at self.old d) at value }
        ensures extent { extent_of self.new ≡ extent_of self.old }
    {
        let (part, place) = place_of((at - self.base) / 16, self.width);
        let words = &mut self.parts[part];
        words.set(place, value);
    }

    /// Opens the words of a range, and those before it in its part. Nothing changes where memory is short, or where the part would
    /// have more than 33,554,432 pages; it is refused only where there is something to open, words or their part.
    pub fn open(&mut self, alloc: Global, at: u64, len: u64) -> Result<(), AllocError>
        requires { IsWithinPart (extent_of self.old) at len }
        ensures words { word_at self.new T.UNWRITTEN ≡ word_at self.old T.UNWRITTEN }
        ensures extent { OnOk result (extent_of self.new ≡ extended (extent_of self.old) at len) }
        ensures err { OnErr result (self.new ≡ self.old) }
        ensures full { OnErr result (extended (extent_of self.old) at len ≢ extent_of self.old) }
    {
        let word = (at - self.base) / 16;
        let part = (word / self.width) as usize;
        let end = (word % self.width + len / 16) as usize;
        let before = self.parts.len();
        match open_part(&mut self.parts, alloc, part, end) {
            Ok(()) => Ok(()),
            Err(short) => {
                self.parts.truncate(before);
                Err(short)
            }
        }
    }

    /// The first address from `at` on that has a word; `None` where there is none below 2^64. It passes from part to
    /// part, and not from word to word.
    pub fn next_open(&self, at: u64) -> Option<u64>
        ensures word { IfSome result (λ a. IsOpen (extent_of self.now) a × (at ≤ a)) }
        ensures first { IfSome result
            (λ a. (b : ℕ) → at ≤ b → b < a → ¬ IsOpen (extent_of self.now) b) }
        ensures none { IfNone result
            ((b : ℕ) → at ≤ b → b < 2 ^ 64 → ¬ IsOpen (extent_of self.now) b) }
    {
        let word = at.saturating_sub(self.base).div_ceil(16);
        let mut place = word % self.width;
        for part in word / self.width..self.parts.len() as u64 {
            let words = &self.parts[part as usize];
            if place < words.len() as u64 {
                return address(self.base, self.width, part, place);
            }
            place = 0;
        }
        None
    }
}

/// The part of a word, and the word's place in it. Nothing is divided for the first part, which has most words.
fn place_of(word: u64, width: u64) -> (usize, usize)
    requires { 0 < width }
    ensures part { result.0 ≡ word / width }
    ensures place { result.1 ≡ word % width }
{
    if word < width {
        (0, word as usize)
    } else {
        ((word / width) as usize, (word % width) as usize)
    }
}

/// The address of a word of a part, if it is below 2^64.
fn address(base: u64, width: u64, part: u64, place: u64) -> Option<u64>
    ensures { MatchOption result (2 ^ 64 ≤ base + 16 * (part * width + place))
        (λ a. a ≡ base + 16 * (part * width + place)) }
{
    part.checked_mul(width)?
        .checked_add(place)?
        .checked_mul(16)?
        .checked_add(base)
}

/// Opens a part up to `end` words. Where memory is short, empty parts may have come.
fn open_part<T: Word, const PAGE: usize>(
    parts: &mut Vec<Part<T, PAGE>>,
    alloc: Global,
    part: usize,
    end: usize,
) -> Result<(), AllocError>
    requires page { IsPageSize PAGE }
    requires part { part < 2 ^ 60 }
    ensures ok { OnOk result (parts.new.items
        ≡ changed_at [] part (filled end T.UNWRITTEN) parts.old.items) }
    ensures err { OnErr result (parts.new.items
        ≡ parts.old.items
        ++ replicate (length parts.new.items - length parts.old.items) []) }
    ensures full { OnErr result
        (changed_at 0 part (max end) (map length parts.old.items)
        ≢ map length parts.old.items) }
{
    add_parts(parts, alloc, part + 1)?;
    let words = &mut parts[part];
    words.open(end)
}

/// Adds empty parts up to a count.
fn add_parts<T: Word, const PAGE: usize>(
    parts: &mut Vec<Part<T, PAGE>>,
    alloc: Global,
    count: usize,
) -> Result<(), AllocError>
    requires { IsPageSize PAGE }
    ensures ok { OnOk result (length parts.new.items ≡ max count (length parts.old.items)) }
    ensures items { parts.new.items
        ≡ parts.old.items
        ++ replicate (length parts.new.items - length parts.old.items) [] }
    ensures full { OnErr result (length parts.old.items < count) }
{
    for _added in parts.len()..count {
        parts.push(Part::new(alloc))?;
    }
    Ok(())
}
