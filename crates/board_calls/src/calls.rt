//! The calls of a board.

ghost use Rattle.std.specs.Prelude.{◌≡◌, ℕ, ◌+◌, ◌<◌, ◌≤◌, ◌∷◌, [], ◌++◌, List, Some, None, true, IsSome, IfOk, IfErr, OnOk, IsTrue, option_map};
ghost use Rattle.chunk_tags.specs.Sizes.{IsChunkSize};
ghost use Rattle.chunk_tags.specs.declared.tiles.Chunk.{Chunk};
ghost use Rattle.address_space.specs.Spaces.{map_length};
ghost use Rattle.fast_bins.specs.FastPorts.{FastStep};
ghost use Rattle.mapped_chunks.specs.DialPorts.{DialStep, Maps};
ghost use Rattle.consolidate_trim.specs.Outside.{AreApart};
ghost use Rattle.arena_core.specs.Journal.{Recorded};
ghost use Rattle.arena_core.specs.declared.journal.Who.{Who};
ghost use Rattle.arena_holds.specs.Places.{KeptArena, kept_of, tray_count};
ghost use Rattle.block_names.specs.Blocks.{IsHeld};
ghost use Rattle.arena_choice.specs.Books.{BookValue};
ghost use Rattle.arena_choice.specs.Numbers.{has, behind_or};
ghost use Rattle.board_types.specs.Flat.{FlatView};
ghost use Rattle.board_calls.specs.Passes.{in_lists, IsWithin, AfterWord, MayWord};
ghost use Rattle.board_calls.specs.Holds.{HoldView, Locks, AfterFast, AfterHeldWord, Returns, Unlocked, HasBlock, GaveBlock, GotBlock, IsBookOf, after_book, own_after};

use arena_choice::Book;
use arena_core::Arena;
use arena_holds::{Empty, Full};
use arena_rules::Moves;
use chunk_tags::Block;
use fast_bins::FastPort;
use mapped_chunks::Dials;

/// The lock was another's.
pub struct Busy<P> {
    pub pass: P,
    pub holder: u64,
}

/// A pass that is tied to its board.
pub trait BoardPass {
    type Ground: Moves + Drop;

    type Held: FastPort + Dials;

    type Words: Dials;

    type Desk;

    ghost view: { Self → FlatView };

    ghost seen: { Self.Held → HoldView };

    ghost words: { Self.Words → FlatView };

    ghost desk_view: { Self.Desk → FlatView };

    ghost found: { Self.Desk → BookValue };

    /// One exchange of a lock word.
    fn try_lock(self, a: u8) -> Result<(Self::Held, Option<Arena<Self::Ground>>), Busy<Self>>
        requires place { a < (view self).tunables.records }
        ensures ok { IfOk result (λ r. Locks (view self) a (seen r.0) (Self.Held.fast.stock r.0)) }
        ensures arena { IfOk result (λ r. option_map (kept_of Self.Ground.plain) r.1 ≡ (seen r.0).kept) }
        ensures busy { IfErr result (λ b. view b.pass ≡ view self) };

    /// Gives an arena and its lock back.
    fn unlock(hold: Self::Held, arena: Arena<Self::Ground>) -> Self
        requires returns { (who : Who) × (entries : List Recorded)
            × Returns who (seen hold) (Self.Held.fast.stock hold) entries (kept_of Self.Ground.plain arena) }
        ensures unlocked { (who : Who) (entries : List Recorded) →
            Returns who (seen hold) (Self.Held.fast.stock hold) entries (kept_of Self.Ground.plain arena) →
            Unlocked (seen hold) (Self.Held.fast.stock hold) entries (kept_of Self.Ground.plain arena) (view result) };

    /// Pushes a block of an arena into its fast bin.
    fn push(&mut self, b: Block)
        requires chunk { IsChunkSize b.size }
        requires fast { b.size ≤ 160 }
        requires arena { IsSome b.arena }
        requires has { HasBlock b (view self.old) }
        ensures gave { GaveBlock b (view self.old) (view self.new) }
        ensures rest { (a : ℕ) → b.arena ≡ Some a → view self.new ≡ record (view self.old) {
          mine = (view self.new).mine;
          pushes = record { arena = a; chunk = record { at = b.addr; size = b.size } } ∷ (view self.old).pushes;
        } };

    /// Posts a block to a tray, by one exchange.
    fn post(&mut self, tray: u32, b: Block) -> Result<(), Full>
        requires tray { tray < tray_count }
        requires held { IsHeld b }
        requires has { HasBlock b (view self.old) }
        ensures gave { OnOk result (GaveBlock b (view self.old) (view self.new)) }
        ensures back { IfErr result (λ full. full.block ≡ b) }
        ensures posted { OnOk result (view self.new ≡ record (view self.old) {
          mine = (view self.new).mine;
          mapped = (view self.new).mapped;
          bytes = (view self.new).bytes;
          posts = record { tray = tray; block = b } ∷ (view self.old).posts;
        }) }
        ensures full { IfErr result (λ full. view self.new ≡ record (view self.old) {
          found = (tray, full.seen) ∷ (view self.old).found;
        }) };

    /// Takes a tray's block, asking so many times.
    fn take_within(&mut self, tray: u32, polls: u32) -> Result<Block, Empty>
        requires tray { tray < tray_count }
        ensures got { IfOk result (λ b. GotBlock b (view self.old) (view self.new)) }
        ensures held { IfOk result IsHeld }
        ensures took { IfOk result (λ b. (more : List (ℕ × ℕ)) × (view self.new ≡ record (view self.old) {
          mine = (view self.new).mine;
          mapped = (view self.new).mapped;
          bytes = (view self.new).bytes;
          asks = (view self.new).asks;
          takes = record { tray = tray; block = b } ∷ (view self.old).takes;
          found = more ++ (view self.old).found;
        })) }
        ensures missed { IfErr result (λ e. (more : List (ℕ × ℕ)) × (view self.new ≡ record (view self.old) {
          asks = (view self.old).asks + polls;
          found = (tray, e.seen) ∷ more ++ (view self.old).found;
        })) };

    /// The book, with its lock.
    fn book_out(self) -> (Self::Desk, Book)
        ensures desk { desk_view result.0 ≡ view self }
        ensures found { found result.0 ≡ result.1 }
        ensures book { IsBookOf (view self) result.1 };

    /// Gives it back.
    fn book_in(desk: Self::Desk, book: Book) -> Self
        requires { (n : ℕ) → has n (found desk).list ≡ true → has n book.list ≡ true }
        ensures { view result ≡ after_book book (own_after (found desk).kept book.kept (desk_view desk).own) (desk_view desk) };

    /// The arena behind another, round the list of the book that the pass gave back last; behind the last one comes main.
    fn next_listed(&self, a: u8) -> u8
        requires { IsTrue (in_lists a (view self.now)) }
        ensures listed { IsTrue (in_lists result (view self.now)) }
        ensures next { (list : List ℕ) (rest : List (List ℕ)) → (view self.now).lists ≡ list ∷ rest →
            result ≡ behind_or 0 a list };

    /// The words, outside all holds.
    fn dials(self) -> Self::Words
        ensures { words result ≡ view self };

    fn dials_end(d: Self::Words) -> Self
        ensures { view result ≡ words d };

    ghost within: { (p : Self) → IsWithin (view p) };

    ghost fast_steps: { (h i : Self.Held) (s : FastStep) → Self.Held.fast.step h s i → AfterFast s (seen h) (seen i) };

    ghost fast_idles: { (h i : Self.Held) → Self.Held.fast.idle h i → seen i ≡ seen h };

    ghost held_words: { (h i : Self.Held) (s : DialStep) → Self.Held.dials.step h s i → AfterHeldWord s (seen h) (seen i) };

    ghost may_map: { (h : Self.Held) (len : ℕ) → (seen h).view.given + len ≤ map_length → (seen h).view.all_mapped ≤ map_length → Self.Held.dials.allows h (Maps len) };

    ghost held_apart: { AreApart Self.Held.fast Self.Held.dials };

    ghost word_steps: { (d e : Self.Words) (s : DialStep) → Self.Words.dials.step d s e → AfterWord s (words d) (words e) };

    ghost may_words: { (d : Self.Words) (s : DialStep) → MayWord s (words d) → Self.Words.dials.allows d s };

    ghost are_words: { (d : Self.Words) (s : DialStep) → Self.Words.dials.allows d s → MayWord s (words d) };
}
