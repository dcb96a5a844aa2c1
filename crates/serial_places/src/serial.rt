//! The places of one order of calls.

ghost use Rattle.std.specs.Prelude.{◌≡◌, ℕ, ◌*◌, ◌≤◌, false, List, ◌∷◌, length, map, replicate, option_map, Some, None, IfSome, IfOk, IsTrue};
ghost use Rattle.fast_bins.specs.FastPorts.{fast_bin_count};
ghost use Rattle.arena_rules.specs.HeapPlaces.{IsHeapPlaced};
ghost use Rattle.arena_rules.specs.PlainArena.{empty_main, is_main};
ghost use Rattle.serial_places.specs.SerialWays.{IsFirst, IsSerial, EndsAs, is_there, slot_in};

use crate::both::Both;
use crate::end::{SerialEnd, split_slots};
use crate::slot::Slot;
use crate::trays::Trays;
use arena_choice::{Book, Choice};
use arena_core::{Arena, Journal};
use arena_ground::Ground;
use arena_holds::{Empty, Full, Places};
use arena_rules::Moves;
use chunk_tags::{Block, NoMemory, Tunables, fast_index};
use fast_bins::{FastPort, PlainFast};
use mapped_chunks::{DialState, PlainDials};
use std::alloc::Global;
use std::marker::Model;

/// How many arenas there may be beside main.
const OTHERS: usize = 63;

/// The places of one order of calls: the arenas with their fast bins, but while one is lent, the words, the book of arenas and
/// the trays stand in it. Nothing waits.
#[derive(Drop)]
pub struct Serial {
    arenas: Vec<Option<Slot>>,
    dials: PlainDials,
    book: Book,
    trays: Trays,
    // The arena that is lent: it comes back into its slot, whichever others aren't there.
    lent: Option<u8>,
    tunables: Tunables,
    // For a new arena and its fast bins.
    alloc: Global,
}

impl Model for Serial {
    ghost use Rattle.serial_places.specs.SerialWays.{SerialState, IsSerial, state_at};

    ghost Value = { SerialState };

    ghost view = { λ s. state_at s.arenas.items s.dials s.book s.trays s.lent s.tunables };

    ghost invariant = { λ s.
        IsSerial (state_at s.arenas.items s.dials s.book s.trays s.lent s.tunables) };
}

/// Main before its first growth.
fn first_ground(alloc: Global) -> Result<Box<Ground>, NoMemory>
    ensures { IfOk result (λ b. b.value.arena ≡ empty_main) }
{
    let main = Ground::main(alloc)?;
    Ok(Box::new(alloc, main)?)
}

/// The slots before the first call: main's is the first of them.
fn first_slots(alloc: Global, main: Slot, others: usize) -> Result<Vec<Option<Slot>>, NoMemory>
    ensures { IfOk result (λ v. v.items ≡ Some main ∷ replicate others None) }
{
    let mut slots = Vec::new(alloc);
    slots.push(Some(main))?;
    for _ in 0..others {
        slots.push(None)?;
    }
    Ok(slots)
}

impl Serial {
    /// The places before the first call: main without a byte, to which thread 0 is attached, and the words as the tunables
    /// have them.
    pub fn new(alloc: Global, t: &Tunables) -> Result<Serial, NoMemory>
        requires one { 1 ≤ t.now.records }
        requires most { t.now.records ≤ 64 }
        ensures { IfOk result (IsFirst t.now) }
    {
        let main = Slot {
            arena: Arena {
                ground: first_ground(alloc)?,
                journal: Journal::new(alloc)?,
            },
            bins: PlainFast::new(alloc),
        };
        Ok(Serial {
            arenas: first_slots(alloc, main, OTHERS)?,
            dials: PlainDials {
                state: DialState {
                    mmap_threshold: t.mmap_threshold,
                    trim_threshold: t.trim_threshold,
                    mapped: 0,
                    bytes: 0,
                    max_mapped: 0,
                    max_bytes: 0,
                },
            },
            book: Book::new(alloc, t.records)?,
            trays: Trays::new(alloc)?,
            lent: None,
            tunables: *t,
            alloc,
        })
    }

    /// Laws; the call does nothing. What stands in the places is as it always is between two holds; an arena has ten fast
    /// bins; and the tiles of one that isn't main fill its heaps, of which some are closed.
    pub fn laws(&self)
        ensures kept { IsSerial self.now }
        ensures ten { (n : ℕ) → IfSome (slot_in self.now.slots n) (λ s.
            length s.bins.bins ≡ fast_bin_count) }
        ensures heaps { (n : ℕ) → IfSome (slot_in self.now.slots n) (λ s.
            is_main s.kept.arena ≡ false → (closed : List ℕ) × IsHeapPlaced s.kept.arena closed) }
    {
        for slot in &self.arenas {
            if let Some(slot) = slot {
                slot.bins.laws();
                let ground = slot.arena.ground.as_ref();
                ground.laws();
            }
        }
    }

    /// The journal of an arena that is there.
    pub fn journal(&self, a: u8) -> &Journal
        requires { IsTrue (is_there self.now a) }
        ensures { option_map (λ s. s.kept.journal) (slot_in self.now.slots a) ≡ Some result.now.items }
    {
        let slot = &self.arenas[usize::from(a)];
        &slot.as_ref().unwrap().arena.journal
    }

    /// What it has at the end.
    pub fn end(self) -> Result<SerialEnd, NoMemory>
        ensures ends { IfOk result (λ e. EndsAs self e.arenas.items
            (map (λ l. l.items) e.fast.items) e.book e.trays.items e.dials) }
        ensures ten { IfOk result (λ e.
            length e.fast.items ≡ fast_bin_count * length e.arenas.items) }
    {
        let Serial {
            arenas,
            dials,
            book,
            trays,
            lent: _,
            tunables: _,
            alloc,
        } = self;
        let (arenas, fast) = split_slots(alloc, arenas)?;
        Ok(SerialEnd {
            arenas,
            fast,
            book,
            trays: trays.blocks()?,
            dials: dials.state,
        })
    }
}

impl Places for Serial {
    type Ground = Ground;

    type Hold = Both<PlainFast, PlainDials>;

    type Dial = PlainDials;

    ghost use Rattle.fast_bins.specs.PlainBins.{plain_fast};
    ghost use Rattle.mapped_chunks.specs.PlainDials.{plain_dials};
    ghost use Rattle.serial_places.specs.Joined.{joined_fast, joined_dials};
    ghost use Rattle.arena_holds.specs.Returning.{IsReturn, Unlocks, IsNew, IsAdded};
    ghost use Rattle.serial_places.specs.LawsOfPlaces.{serial_laws};
    ghost use Rattle.serial_places.specs.SerialWays.{kept_ground, state_ways};

    ghost ways = { state_ways };

    ghost laws = { serial_laws };

    fn allocator(&self) -> Global {
        self.alloc
    }

    fn lock(&mut self, a: u8) -> (Both<PlainFast, PlainDials>, Option<Arena<Ground>>) {
        let slot = &mut self.arenas[usize::from(a)];
        let Slot { arena, bins } = slot.take().unwrap();
        self.lent = Some(a);
        let hold = Both {
            bins,
            dials: self.dials,
        };
        (hold, Some(arena))
    }

    fn lock_free(
        &mut self,
        start: u8,
        _avoid: Option<u8>,
    ) -> (u8, Both<PlainFast, PlainDials>, Option<Arena<Ground>>) {
        let (hold, arena) = self.lock(start);
        (start, hold, arena)
    }

    fn unlock(&mut self, hold: Both<PlainFast, PlainDials>, arena: Arena<Ground>)
        requires lent { IsReturn state_ways (joined_fast plain_fast) (joined_dials plain_dials)
            (kept_ground arena) hold self.old }
        ensures gave { state_ways.gave self.old hold (kept_ground arena) self.new }
        ensures unlocked { Unlocks state_ways (joined_fast plain_fast) (joined_dials plain_dials)
            self.old hold (kept_ground arena) self.new }
    {
        let Both { bins, dials } = hold;
        let a = self.lent.take().unwrap();
        self.arenas[usize::from(a)] = Some(Slot { arena, bins });
        self.dials = dials;
    }

    fn dial_out(&mut self) -> PlainDials {
        self.dials
    }

    fn dial_in(&mut self, d: PlainDials) {
        self.dials = d;
    }

    fn make_room(&mut self, a: u8) -> Result<(), NoMemory> {
        let slot = self.arenas[usize::from(a)].as_mut().unwrap();
        slot.bins.make_room()
    }

    fn push(&mut self, b: Block) {
        let a = b.arena.unwrap();
        let slot = self.arenas[usize::from(a)].as_mut().unwrap();
        slot.bins.push(fast_index(b.size), b.addr);
    }

    fn choose(&mut self, thread: u8, fresh: bool, t: &Tunables) -> Choice {
        let choice = self.book.choose(thread, fresh, t);
        if let Choice::Free(a) = choice {
            self.book.attach(thread, a);
        }
        choice
    }

    fn undo(&mut self, a: u8) {
        self.book.undo_new(a);
    }

    fn reuse(&mut self, thread: u8, a: u8) {
        self.book.reused(thread, a);
    }

    fn leave(&mut self, thread: u8) {
        self.book.detach(thread);
    }

    fn add(&mut self, thread: u8, arena: Arena<Ground>)
        requires new { IsNew state_ways (kept_ground arena) self.old }
        ensures { IsAdded state_ways thread self.old (kept_ground arena) self.new }
    {
        let a = arena.ground.as_ref().number();
        let bins = PlainFast::new(self.alloc);
        self.arenas[usize::from(a)] = Some(Slot { arena, bins });
        self.book.attach(thread, a);
    }

    fn post(&mut self, tray: u32, b: Block) -> Result<(), Full> {
        self.trays.post(tray, b)
    }

    fn take(&mut self, tray: u32) -> Result<Block, Empty> {
        self.trays.take(tray)
    }
}
