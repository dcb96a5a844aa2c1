//! Words in slots.

ghost use Rattle.std.specs.Prelude.{◌≡◌, ℕ, ◌<◌, ◌≤◌, ◌^◌, ◌+◌, ◌*◌, [], length, OnOk, OnErr};
ghost use Rattle.part_words.specs.Slots.{times, word_in, Sets, Takes, Gives, Widens};

use crate::word::Word;
use list_laws::make_room_for;
use std::alloc::{AllocError, Global};
use std::marker::Model;

/// Slots with numbers, each with `N` words (this project's own). A slot that is given back is free, and is the next that is taken, so
/// that there are no more slots than ever were taken at once. No word of a free slot is written.
#[derive(Debug, Drop)]
pub(crate) struct Slots<T: Word, const N: usize> {
    words: Vec<T>,
    /// How many slots there are.
    count: usize,
    free: Vec<u32>,
}

impl<T: Word, const N: usize> Model for Slots<T, N> {
    ghost use Rattle.std.specs.Prelude.{◌/◌, min, vec_capacity};
    ghost use Rattle.part_words.specs.Slots.{AreSlots, Slots as SlotsOf};

    ghost Value = { SlotsOf T };

    ghost view = { λ s. record {
      words = s.words.items;
      count = s.count;
      free = s.free.items;
      room = min (vec_capacity s.words / N) (vec_capacity s.free);
    } };

    ghost invariant = { λ s. AreSlots T.UNWRITTEN N s.words.items s.count s.free.items };
}

impl<T: Word, const N: usize> Slots<T, N> {
    /// No slots.
    pub(crate) fn new(alloc: Global) -> Slots<T, N>
        ensures words { result.words ≡ [] }
        ensures count { result.count ≡ 0 }
        ensures free { result.free ≡ [] }
    {
        Slots {
            words: Vec::new(alloc),
            count: 0,
            free: Vec::new(alloc),
        }
    }

    /// The word at an offset of a slot.
    pub(crate) fn word(&self, slot: usize, offset: usize) -> T
        requires slot { slot < self.now.count }
        requires offset { offset < N }
        ensures { result ≡ word_in T.UNWRITTEN N self.now.words slot offset }
    {
        self.words[slot * N + offset]
    }

    /// Writes a word of a slot that isn't free.
    pub(crate) fn set_word(&mut self, slot: usize, offset: usize, word: T)
        requires slot { slot < self.old.count }
        requires offset { offset < N }
        requires taken { times slot self.old.free ≡ 0 }
        ensures { Sets T.UNWRITTEN N self.old slot offset word self.new }
    {
        self.words[slot * N + offset] = word;
    }

    /// A slot that was free, or else one more; no word of it is written. There is room, so no memory is asked for.
    pub(crate) fn take(&mut self) -> usize
        requires room { self.old.count < self.old.room + length self.old.free }
        ensures { Takes T.UNWRITTEN N self.old result self.new }
    {
        match self.free.pop() {
            Some(slot) => slot as usize,
            None => {
                let slot = self.count;
                let len = self.words.len();
                self.words.resize(len + N, T::UNWRITTEN).unwrap();
                self.count = slot + 1;
                slot
            }
        }
    }

    /// Gives back a slot of which no word is written. There is room, so no memory is asked for.
    pub(crate) fn give(&mut self, slot: usize)
        requires number { slot < 2 ^ 32 }
        requires slot { slot < self.old.count }
        requires taken { times slot self.old.free ≡ 0 }
        requires clear { (offset : ℕ) → offset < N
            → word_in T.UNWRITTEN N self.old.words slot offset ≡ T.UNWRITTEN }
        requires room { length self.old.free < self.old.room }
        ensures { Gives self.old slot self.new }
    {
        self.free.push(slot as u32).unwrap();
    }

    /// Makes room for so many slots in all, be they taken or free.
    pub(crate) fn make_room(&mut self, count: usize) -> Result<(), AllocError>
        requires some { 0 < N }
        requires fits { count * N < 2 ^ 64 }
        ensures widens { Widens self.old self.new }
        ensures room { OnOk result (count ≤ self.new.room) }
        ensures full { OnErr result (self.old.room < count) }
    {
        let room = (count * N).saturating_sub(self.words.len());
        make_room_for(&mut self.words, room)?;
        let room = count.saturating_sub(self.free.len());
        make_room_for(&mut self.free, room)
    }
}
