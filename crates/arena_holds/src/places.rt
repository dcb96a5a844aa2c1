//! Where a thread's calls find arenas and the words beside them.

ghost use Rattle.std.specs.Prelude.{◌≡◌, ℕ, ◌<◌, ◌≤◌, false, Some, IsTrue, IsSome, OnOk, OnErr, IfErr, option_map};
ghost use Rattle.chunk_tags.specs.Sizes.{IsChunkSize};
ghost use Rattle.chunk_tags.specs.declared.block.Block.{Block};
ghost use Rattle.arena_holds.specs.Places.{PlaceWays, PlaceLaws, Hands, both_of, kept_of, tray_count};
ghost use Rattle.arena_holds.specs.Returning.{IsReturn, Unlocks, AreReturn, ReturnsWords, IsUnseen, IsBooked, IsChosen, IsUndone, IsNew, IsAdded, IsPosted, IsTaken, seen_full, found_in_tray};
ghost use Rattle.block_names.specs.Blocks.{IsHeld};
ghost use Rattle.arena_holds.specs.BookChanges.{Reuses, Leaves};

use crate::trays::{Empty, Full};
use arena_choice::Choice;
use arena_core::Arena;
use arena_rules::Moves;
use chunk_tags::{Block, NoMemory, Tunables};
use fast_bins::FastPort;
use mapped_chunks::Dials;
use std::alloc::Global;

/// The places of a run: arenas behind their locks, with their fast bins, and the words beside them. A thread's calls stand
/// on it (this project's own).
pub trait Places {
    /// How an arena is kept.
    type Ground: Moves + Drop;

    /// The fast bins of a held arena, and the words.
    type Hold: FastPort + Dials;

    /// The words outside all holds.
    type Dial: Dials;

    ghost ways: { PlaceWays Self Self.Hold Self.Dial };

    /// The allocator of new arenas.
    fn allocator(&self) -> Global;

    /// Locks an arena, which is lent with its port.
    fn lock(&mut self, a: u8) -> (Self::Hold, Option<Arena<Self::Ground>>)
        requires there { IsTrue (ways.there self.old a) }
        ensures lent { ways.lent self.old a result.0
            (option_map (kept_of Self.Ground.plain) result.1) self.new }
        ensures some { IsSome result.1 };

    /// Locks the first arena from one on, round the list, whose lock is free, and tells which; where none is, waits for the
    /// one that it began with, or where that is to be avoided for the one behind it (in glibc's `reused_arena`).
    fn lock_free(
        &mut self,
        start: u8,
        avoid: Option<u8>,
    ) -> (u8, Self::Hold, Option<Arena<Self::Ground>>)
        requires there { IsTrue (ways.there self.old start) }
        requires listed { IsTrue (ways.listed self.old start) }
        requires whole { ways.whole self.old }
        ensures free { ways.free self.old start avoid result.0 }
        ensures listed { IsTrue (ways.listed self.old result.0) }
        ensures lent { ways.lent self.old result.0 result.1
            (option_map (kept_of Self.Ground.plain) result.2) self.new }
        ensures some { IsSome result.2 };

    /// Gives an arena back, and unlocks it.
    fn unlock(&mut self, hold: Self::Hold, arena: Arena<Self::Ground>)
        requires lent { IsReturn ways Self.Hold.fast Self.Hold.dials
            (kept_of Self.Ground.plain arena) hold self.old }
        ensures gave { ways.gave self.old hold (kept_of Self.Ground.plain arena) self.new }
        ensures unlocked { Unlocks ways Self.Hold.fast Self.Hold.dials self.old hold
            (kept_of Self.Ground.plain arena) self.new };

    /// Lends the words, outside all holds.
    fn dial_out(&mut self) -> Self::Dial
        requires whole { ways.whole self.old }
        ensures lent { ways.dials_lent self.old result self.new };

    /// Gives the words back.
    fn dial_in(&mut self, d: Self::Dial)
        requires lent { AreReturn ways Self.Dial.dials d self.old }
        ensures gave { ways.dials_gave self.old d self.new }
        ensures returned { ReturnsWords ways Self.Dial.dials self.old d self.new };

    /// Makes room for one push of a block of an arena. Nothing else is seen; `NoMemory` comes only where there was no room.
    fn make_room(&mut self, a: u8) -> Result<(), NoMemory>
        requires there { IsTrue (ways.there self.old a) }
        ensures idle { ways.idle self.old self.new }
        ensures room { OnOk result (ways.room self.new a) }
        ensures full { OnErr result (ways.room self.old a → ⊥) }
        ensures unseen { IsUnseen ways self.old (λ _. 0) (λ _. 0) self.new };

    /// Pushes a block of an arena into its fast bin. No memory is asked for.
    fn push(&mut self, b: Block)
        requires chunk { IsChunkSize b.size }
        requires fast { b.size ≤ 160 }
        requires arena { IsSome b.arena }
        requires served { ways.serves false self.old (λ weigh. weigh b) }
        requires room { (a : ℕ) → b.arena ≡ Some a → ways.room self.old a }
        ensures pushed { ways.pushed self.old b self.new }
        ensures gone { IsUnseen ways self.old (λ weigh. weigh b) (λ _. 0) self.new };

    /// Chooses an arena for a thread, afresh or not; where it comes from the free list the thread is attached to it. In one hold
    /// of the book (glibc's `arena_get2`).
    fn choose(&mut self, thread: u8, fresh: bool, t: &Tunables) -> Choice
        requires tunables { t.now ≡ ways.tunables self.old }
        requires whole { ways.whole self.old }
        ensures { IsChosen ways thread fresh t.now self.old result self.new };

    /// Gives the number of a new arena back, which couldn't be had.
    fn undo(&mut self, a: u8)
        requires owed { ways.owed self.old a }
        ensures { IsUndone ways a self.old self.new };

    /// Attaches a thread to an arena that others may use too (the end of glibc's `reused_arena`).
    fn reuse(&mut self, thread: u8, a: u8)
        requires listed { IsTrue (ways.listed self.old a) }
        ensures { IsBooked ways self.old (Reuses thread a) self.new };

    /// A thread leaves its arena (glibc's `__malloc_arena_thread_freeres`).
    fn leave(&mut self, thread: u8)
        requires whole { ways.whole self.old }
        ensures { IsBooked ways self.old (Leaves thread) self.new };

    /// Puts a new arena into its place, and then attaches a thread to it, which brings it into the list (the end of glibc's
    /// `_int_new_arena`).
    fn add(&mut self, thread: u8, arena: Arena<Self::Ground>)
        requires new { IsNew ways (kept_of Self.Ground.plain arena) self.old }
        ensures { IsAdded ways thread self.old (kept_of Self.Ground.plain arena) self.new };

    /// Posts a block to a tray. Where it isn't empty the block comes back.
    fn post(&mut self, tray: u32, b: Block) -> Result<(), Full>
        requires tray { tray < tray_count }
        requires held { IsHeld b }
        requires served { ways.serves false self.old (λ weigh. weigh b) }
        ensures posted { IsPosted ways tray self.old b (seen_full result) self.new }
        ensures back { IfErr result (λ full. full.block ≡ b) };

    /// Takes a tray's block, where there is one.
    fn take(&mut self, tray: u32) -> Result<Block, Empty>
        requires tray { tray < tray_count }
        requires whole { ways.whole self.old }
        ensures { IsTaken ways tray self.old (found_in_tray result) self.new };

    ghost laws: { PlaceLaws ways Self.Hold.fast Self.Hold.dials Self.Dial.dials };
}
