//! One fast bin: a chain and a private list, in one stack.

ghost use Rattle.std.specs.Prelude.{◌≡◌, ◌≤◌, false, length, IsTrue, IfOk, OnOk, OnErr, IsSome};
ghost use Rattle.fast_bins.specs.PlainBins.{empty_bin, listed, pushed, first_in, without_front, gathered, own_front, without_own, has_room};

use chunk_tags::{Addr, NoMemory};
use std::alloc::{AllocError, Global};
use std::marker::Model;

/// The chunks of a bin, its front last; the first `own` of them are its private list.
#[derive(Drop)]
pub struct BinStack {
    items: Vec<Addr>,
    own: usize,
}

impl Model for BinStack {
    ghost use Rattle.std.specs.Prelude.{ℕ, List, ◌≤◌, drop, take, reverse, vec_capacity, vec_len};
    ghost use Rattle.fast_bins.specs.PlainBins.{RoomyBin};

    ghost Value = { RoomyBin };

    ghost view = { λ s. record {
      bin = record { chain = reverse (drop s.own s.items.items); own = reverse (take s.own s.items.items) };
      room = vec_capacity s.items;
    } };

    ghost invariant = { λ s. s.own ≤ vec_len s.items };
}

impl BinStack {
    /// An empty bin, which takes no memory.
    pub fn new(alloc: Global) -> BinStack
        ensures { result.bin ≡ empty_bin }
    {
        BinStack {
            items: Vec::new(alloc),
            own: 0,
        }
    }

    /// Makes room for one more chunk.
    pub fn make_room(&mut self) -> Result<(), NoMemory>
        ensures bin { self.new.bin ≡ self.old.bin }
        ensures more { self.old.room ≤ self.new.room }
        ensures room { OnOk result (IsTrue (has_room self.new)) }
        ensures full { OnErr result (has_room self.old ≡ false) }
        ensures still { OnErr result (has_room self.new ≡ false) }
    {
        if self.has_room() {
            return Ok(());
        }
        self.items.reserve(1)?;
        Ok(())
    }

    /// Whether there is room for one more chunk.
    pub fn has_room(&self) -> bool
        ensures { result ≡ has_room self.now }
    {
        self.items.len() < self.items.capacity()
    }

    /// Puts a chunk at the front. There is room, so no memory is asked for.
    pub fn push(&mut self, at: Addr)
        requires { IsTrue (has_room self.old) }
        ensures { self.new.bin ≡ pushed at self.old.bin }
    {
        self.items.push(at).unwrap();
    }

    /// The front, which leaves the bin.
    pub fn pop(&mut self) -> Option<Addr>
        ensures front { result ≡ first_in self.old.bin }
        ensures bin { self.new.bin ≡ without_front self.old.bin }
        ensures room { self.new.room ≡ self.old.room }
        ensures within { length (listed self.old.bin) ≤ self.old.room }
    {
        let front = self.items.pop();
        self.own = self.own.min(self.items.len());
        front
    }

    /// Puts the whole chain before the private list.
    #[tactic(auto, using(crate::proofs::Reversed::reversed_parts))]
    pub fn gather(&mut self)
        ensures bin { self.new.bin ≡ gathered self.old.bin }
        ensures room { self.new.room ≡ self.old.room }
    {
        self.own = self.items.len();
    }

    /// The front of the private list, which leaves it. Constant time where the chain is empty.
    pub fn pop_own(&mut self) -> Option<Addr>
        ensures front { result ≡ own_front self.old.bin }
        ensures bin { self.new.bin ≡ without_own self.old.bin }
        ensures room { self.new.room ≡ self.old.room }
        ensures within { length (listed self.old.bin) ≤ self.old.room }
    {
        if self.own == 0 {
            return None;
        }
        self.own -= 1;
        Some(self.items.remove(self.own))
    }

    /// The addresses, front first.
    #[tactic(auto, using(crate::proofs::Reversed::reversed_parts))]
    pub fn addresses(&self, alloc: Global) -> Result<Vec<Addr>, AllocError>
        ensures { IfOk result (λ v. v.items ≡ listed self.now.bin) }
    {
        self.items.iter().rev().copied().collect(alloc)
    }
}
