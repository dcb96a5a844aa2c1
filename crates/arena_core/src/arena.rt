//! An arena with its journal.

ghost use Rattle.std.specs.Prelude.{◌≡◌, ℕ, ◌^◌, ◌<◌, ◌≤◌, [], ◌∷◌, ◌++◌, IsTrue, IsNone, IsSome, IfOk, IfSome, IfErr, OnOk, OnErr, None, Some, length};
ghost use Rattle.chunk_tags.specs.Sizes.{IsRequestSize};
ghost use Rattle.chunk_tags.specs.Tunables.{IsTuned};
ghost use Rattle.address_space.specs.Ports.{Rose};
ghost use Rattle.address_space.specs.Spaces.{space_refusals};
ghost use Rattle.thread_cache.specs.Caches.{CacheValue};
ghost use Rattle.arena_rules.specs.PlainArena.{Plain};
ghost use Rattle.arena_rules.specs.Rules.{windows_of};
ghost use Rattle.consolidate_trim.specs.Holds.{IsBacked, no_chunk, one_chunk};
ghost use Rattle.consolidate_trim.specs.Outside.{AreApart, means};
ghost use Rattle.arena_growth.specs.Ledgers.{stage};
ghost use Rattle.arena_growth.specs.Asking.{IsSearchable, IsReady, AllowsMaps, beside_arena, found_of};
ghost use Rattle.arena_growth.specs.FirstHeap.{closed_arena};
ghost use Rattle.arena_growth.specs.declared.found.Found.TheVariants as finds;
ghost use Rattle.arena_core.specs.Opening.{OpensAs, OpensShort, RefusesOpening};
ghost use Rattle.arena_core.specs.Replay.{IsReplay, chunk_at, ended_found};
ghost use Rattle.arena_core.specs.Arenas.{Takes, FitsRequest, FailsShort, GivesShort, Records, held, take_of, recorded};
ghost use Rattle.arena_core.specs.declared.journal.Act.TheVariants as acts;

use crate::entries::Journal;
use crate::journal::{Act, Ended, Who};
use crate::searching::search;
use crate::take::{GiveShort, Take};
use address_space::{Kernel, Space};
use arena_growth::{Found, open_ground};
use arena_rules::{Moves, Said};
use chunk_tags::{Block, Chunk, NoMemory, Size, Tunables};
use consolidate_trim::give;
use fast_bins::FastPort;
use mapped_chunks::Dials;
use std::alloc::Global;
use thread_cache::Cache;

/// An arena: what it consists of, and the journal of its holds.
#[derive(Drop)]
pub struct Arena<M: Moves> {
    /// It stands behind a pointer, so that an arena which is lent moves in few bytes.
    pub ground: Box<M>,
    pub journal: Journal,
}

/// How a hold ends that found this.
pub fn ended_by(found: &Found) -> Ended
    ensures { result ≡ ended_found (found_of found.now) }
{
    match found {
        Found::InArena(c) => Ended::Got {
            addr: c.at,
            size: c.size,
            mapped: false,
        },
        Found::InMapping(c) => Ended::Got {
            addr: c.at,
            size: c.size,
            mapped: true,
        },
        Found::Nowhere => Ended::Refused,
    }
}

/// What is taken where this was found, in the arena with this number.
fn take_found(number: u8, found: &Found) -> Take
    ensures { result ≡ take_of number found.now }
{
    match found {
        Found::InArena(c) => Take::Got(Block {
            addr: c.at,
            size: c.size,
            lead: 0,
            arena: Some(number),
        }),
        Found::InMapping(c) => Take::Got(Block {
            addr: c.at,
            size: c.size,
            lead: 0,
            arena: None,
        }),
        Found::Nowhere => Take::Refused,
    }
}

impl<M: Moves> Arena<M> {
    /// Takes a chunk of `nb` bytes by the rules of the search, and records the hold (glibc's `_int_malloc`). Chunks that go
    /// to the caller's cache lie there afterwards. The entry is reserved before anything changes; where memory is short
    /// later, the entry says so.
    pub fn take<K: Kernel, P: FastPort + Dials>(
        &mut self,
        who: Who,
        nb: Size,
        cache: &mut Cache,
        port: &mut P,
        space: &mut Space<K>,
        t: &Tunables,
    ) -> Result<Take, NoMemory>
        requires ready { IsReady (means P.fast P.dials K.port) t.now
            (stage (M.plain self.old.ground.value) (beside_arena port.old cache.old space.old) []) }
        requires allows { AllowsMaps P.dials port.old space.old }
        requires apart { AreApart P.fast P.dials }
        requires tuned { IsSearchable t.now }
        requires size { IsRequestSize nb }
        ensures taken { let before = held (M.plain self.old.ground.value) port.old cache.old space.old
            self.old.journal.items in
            let after = held (M.plain self.new.ground.value) port.new cache.new space.new
            self.new.journal.items in
            IfOk result (λ take.
            Takes (means P.fast P.dials K.port) t.now who (acts.Take nb) before take after) }
        ensures short { let before = held (M.plain self.old.ground.value) port.old cache.old space.old
            self.old.journal.items in
            let after = held (M.plain self.new.ground.value) port.new cache.new space.new
            self.new.journal.items in
            OnErr result
            (FailsShort (means P.fast P.dials K.port) t.now who
            (acts.Take nb) before no_chunk after) }
        ensures fits { IfOk result (FitsRequest nb) }

        // The journal stays as it was only where it had no room for the entry.
        ensures full { OnErr result (self.new.journal.items ≡ self.old.journal.items
            → self.old.journal.capacity ≤ length self.old.journal.items) }

        // Nothing is taken only where the system refused an ask.
        ensures refused { IfOk result (λ take. take ≡ Take.Refused
            → Rose (space_refusals K.port space.old) (space_refusals K.port space.new)) }

        // The arena is still what the replay of its journal gives.
        ensures replay { (start : Plain)
            → IsReplay t.now start self.old.journal.items (M.plain self.old.ground.value)
            → IsReplay t.now start self.new.journal.items (M.plain self.new.ground.value) }
    {
        // Another arena has a top, so it was opened: no journal has a search before that.
        self.ground.as_ref().top_law();
        let mut said = self.journal.begin()?;
        match search(self.ground.as_mut(), nb, cache, port, space, t, &mut said) {
            Ok(found) => {
                let found = &found;
                self.journal
                    .append(who, Act::Take { nb }, said, ended_by(found));
                Ok(take_found(self.ground.as_ref().number(), found))
            }
            Err(NoMemory) => {
                self.journal
                    .append(who, Act::Take { nb }, said, Ended::Short);
                Err(NoMemory)
            }
        }
    }

    /// Gives a used chunk back to its arena, and records the hold: it is merged, and what follows (the part of glibc's
    /// `_int_free` under the lock). Where there is no memory for the entry, the block comes back and nothing changed; where
    /// memory is short later, the chunk is merged, and the entry says so.
    pub fn give<K: Kernel, P: FastPort + Dials>(
        &mut self,
        who: Who,
        b: Block,
        port: &mut P,
        space: &mut Space<K>,
        t: &Tunables,
    ) -> Result<(), GiveShort>
        requires backed { IsBacked P.fast (M.plain self.old.ground.value) port.old
            (one_chunk (chunk_at b.addr b.size)) }
        requires apart { AreApart P.fast P.dials }
        ensures given { (cache : CacheValue) → OnOk result
            (Records (means P.fast P.dials K.port) t.now who (acts.Give b.addr b.size)
            (held (M.plain self.old.ground.value) port.old cache space.old self.old.journal.items)
            (one_chunk (chunk_at b.addr b.size)) finds.Nowhere
            (held (M.plain self.new.ground.value) port.new cache space.new self.new.journal.items)) }
        ensures short { (cache : CacheValue) →
            let before = held (M.plain self.old.ground.value) port.old cache space.old
            self.old.journal.items in
            let after = held (M.plain self.new.ground.value) port.new cache space.new
            self.new.journal.items in
            IfErr result (λ e.
            GivesShort (means P.fast P.dials K.port) t.now who b before e.back after) }

        // The block comes back only where the journal had no room for the entry.
        ensures full { IfErr result (λ e. IsSome e.back
            → self.old.journal.capacity ≤ length self.old.journal.items) }

        // The arena is still what the replay of its journal gives.
        ensures replay { (start : Plain)
            → IsReplay t.now start self.old.journal.items (M.plain self.old.ground.value)
            → IsReplay t.now start self.new.journal.items (M.plain self.new.ground.value) }
    {
        let Ok(mut said) = self.journal.begin() else {
            return Err(GiveShort { back: Some(b) });
        };
        let Block {
            addr,
            size,
            lead: _,
            arena: _,
        } = b;
        let act = Act::Give { addr, size };
        match give(
            self.ground.as_mut(),
            Chunk { at: addr, size },
            port,
            space,
            t,
            &mut said,
        ) {
            Ok(()) => {
                self.journal.append(who, act, said, Ended::Done);
                Ok(())
            }
            Err(NoMemory) => {
                self.journal.append(who, act, said, Ended::Short);
                Err(GiveShort { back: None })
            }
        }
    }
}

impl<M: Moves + Drop> Arena<M> {
    /// Opens another arena, under a number and for a thread that asks for so many bytes, and records this as its first hold
    /// (glibc's `_int_new_arena`). `None` exactly where both asks for heap 0 were refused; that leaves no entry.
    pub fn open<K: Kernel>(
        alloc: Global,
        who: Who,
        number: u8,
        bytes: u64,
        space: &mut Space<K>,
        t: &Tunables,
    ) -> Result<Option<Arena<M>>, NoMemory>
        requires other { 0 < number }
        requires number { number < 64 }
        requires tuned { IsTuned t.now }
        requires bytes { bytes ≤ 2 ^ 63 }
        requires windows { space.old.windows ≡ windows_of t.now }
        ensures opened { IfOk result (λ o. IfSome o (λ a.
            OpensAs M.plain K.port t.now who number bytes space.old
            a.ground.value a.journal.items space.new)) }
        ensures refused { IfOk result (λ o. IsNone o
            → RefusesOpening K.port t.now number bytes space.old space.new) }
        ensures short { OnErr result (OpensShort K.port t.now number bytes space.old space.new) }

        // The arena is what the replay of its journal gives.
        ensures replay { IfOk result (λ o. IfSome o (λ a.
            IsReplay t.now (closed_arena t.now number) a.journal.items (M.plain a.ground.value))) }
    {
        let mut journal = Journal::new(alloc)?;
        let mut said = journal.begin()?;
        match open_ground(alloc, number, bytes, space, t, &mut said)? {
            Some(ground) => {
                journal.append(who, Act::Open { bytes }, said, Ended::Done);
                Ok(Some(Arena { ground, journal }))
            }
            None => Ok(None),
        }
    }
}
