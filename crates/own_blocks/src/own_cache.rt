//! A thread's own cache.

ghost use Rattle.std.specs.Prelude.{◌≡◌, ◌^◌, ◌<◌, ◌≤◌, [], ◌++◌, false, None, is_ok, option_to_list, OnOk, OnErr, IfOk, IfErr, IfSome, IfNone};
ghost use Rattle.chunk_tags.specs.Sizes.{IsChunkSize, IsRequestSize, cache_index_of};
ghost use Rattle.chunk_tags.specs.Tunables.{IsTuned};
ghost use Rattle.consolidate_trim.specs.Outside.{means};
ghost use Rattle.thread_cache.specs.Caches.{opened_cache, is_open, takes, newest, without_newest, with_newest, blocks_of, without_next, structure_of};
ghost use Rattle.thread_cache.specs.Held.{IsCachedAt, IsSoundCache};
ghost use Rattle.block_names.specs.Blocks.{IsHeld};
ghost use Rattle.arena_core.specs.declared.journal.Act.TheVariants.{Resize};
ghost use Rattle.arena_holds.specs.Calls.{hold_of};
ghost use Rattle.arena_holds.specs.Holding.{Finds, Resizes, ResizesShort};
ghost use Rattle.arena_holds.specs.RunningShort.{RunsShort};
ghost use Rattle.arena_holds.specs.Places.{setting, IsServed, Carries, standing, both_of, in_cache};
ghost use Rattle.arena_holds.specs.Searching.{IsSearch, search as search_rules};

use address_space::{Kernel, Space};
use arena_core::{Act, Who};
use arena_holds::{HeldResize, Places, Search, resize_held, search};
use chunk_tags::{Block, NoMemory, Size, Tunables};
use std::alloc::Global;
use std::marker::Model;
use thread_cache::Cache;

/// A cache whose structure, where it is open, is a chunk that a thread may hold. A contract sees it as a cache.
#[derive(Debug, Drop)]
pub struct OwnCache {
    cache: Cache,
    // For the lists.
    alloc: Global,
}

impl Model for OwnCache {
    ghost use Rattle.thread_cache.specs.Caches.{CacheValue};
    ghost use Rattle.own_blocks.specs.Structure.{HasStructure};

    ghost Value = { CacheValue };

    ghost view = { λ c. c.cache };

    ghost invariant = { λ c. HasStructure c.cache };
}

impl OwnCache {
    /// A closed cache.
    pub fn closed(alloc: Global) -> OwnCache
        ensures { result ≡ None }
    {
        OwnCache {
            cache: Cache::closed(),
            alloc,
        }
    }

    /// The cache itself.
    pub fn cache(&self) -> &Cache
        ensures { result.now ≡ self.now }
    {
        &self.cache
    }

    /// Whether it is open.
    pub fn is_open(&self) -> bool
        ensures { result ≡ is_open self.now }
    {
        self.cache.is_open()
    }

    /// Opens the cache in a chunk for its structure. Where memory is short it stays closed, and the chunk is dropped.
    pub fn open(&mut self, structure: Block, t: &Tunables) -> Result<(), NoMemory>
        requires closed { is_open self.old ≡ false }
        requires held { IsHeld structure }
        requires tuned { IsTuned t.now }
        ensures ok { OnOk result
            (self.new ≡ opened_cache structure t.now.tcache_count t.now.tcache_bins) }
        ensures unchanged { OnErr result (self.new ≡ self.old) }
    {
        match self
            .cache
            .open(self.alloc, structure, t.tcache_count, t.tcache_bins)
        {
            Ok(()) => Ok(()),
            Err(_short) => Err(NoMemory),
        }
    }

    /// The newest block of a list, which leaves it. `None` exactly where the list is empty.
    pub fn get(&mut self, bin: u8) -> Option<Block>
        requires { bin < 64 }
        ensures newest { result ≡ newest self.old bin }
        ensures rest { self.new ≡ without_newest self.old bin }
        ensures cached { IfSome result (IsCachedAt bin) }
        ensures unchanged { IfNone result (self.new ≡ self.old) }
    {
        self.cache.get(bin)
    }

    /// Puts a block at the front of the list for its size. It comes back exactly where the cache doesn't take it.
    pub fn put(&mut self, b: Block) -> Result<(), Block>
        requires { IsChunkSize b.size }
        ensures taken { is_ok result ≡ takes self.old b }
        ensures ok { OnOk result (self.new ≡ with_newest self.old b) }
        ensures err { IfErr result (λ back. back ≡ b) }
        ensures unchanged { OnErr result (self.new ≡ self.old) }
        ensures sound { OnOk result (IfSome self.new IsSoundCache) }
    {
        self.cache.put(b)
    }

    /// The newest block of the lowest list that isn't empty, which leaves it. `None` exactly where all lists are empty.
    pub fn drain(&mut self) -> Option<Block>
        ensures rest { self.new ≡ without_next self.old }
        ensures order { blocks_of self.old ≡ option_to_list result ++ blocks_of self.new }
        ensures empty { IfNone result (blocks_of self.old ≡ []) }
        ensures cached { IfSome result (λ b. IsCachedAt (cache_index_of b.size) b) }
        ensures unchanged { IfNone result (self.new ≡ self.old) }
    {
        self.cache.drain()
    }

    /// Closes the cache, whose lists are empty, and gives the chunk of its structure. `None` exactly where it was closed.
    pub fn close(&mut self) -> Option<Block>
        requires { blocks_of self.old ≡ [] }
        ensures structure { result ≡ structure_of self.old }
        ensures held { IfSome result IsHeld }
        ensures closed { self.new ≡ None }
    {
        self.cache.close()
    }

    /// Searches for a chunk for a thread, whose cache this is (`arena_holds::search`).
    pub fn search<P: Places, K: Kernel>(
        &mut self,
        p: &mut P,
        who: &Who,
        act: &Act,
        bytes: u64,
        again: u64,
        space: &mut Space<K>,
        t: &Tunables,
    ) -> Result<Search, NoMemory>
        requires writer { P.ways.writes p.old who.now }
        requires act { IsSearch act.now }
        requires bytes { bytes ≤ 2 ^ 63 }
        requires again { again ≤ 2 ^ 63 }
        requires tuned { IsTuned t.now }
        requires served { IsServed P.ways t.now (in_cache self.old) (standing p.old space.old) }
        ensures finds { IfOk result (λ found.
            Finds (setting P.ways (means P.Hold.fast P.Hold.dials K.port) P.Dial.dials)
            t.now who.now
            (search_rules t.now who.now.thread bytes again act.now self.old) act.now self.old
            (standing p.old space.old)
            found.hold found.block self.new (standing p.new space.new)) }
        ensures short { OnErr result
            (Carries P.ways false (in_cache self.old) (standing p.old space.old)
            (in_cache self.new) (standing p.new space.new)) }
        ensures left { OnErr result
            (RunsShort (setting P.ways (means P.Hold.fast P.Hold.dials K.port) P.Dial.dials) t.now
            who.now (search_rules t.now who.now.thread bytes again act.now self.old)
            (standing p.old space.old) (standing p.new space.new)) }
        ensures structure { structure_of self.new ≡ structure_of self.old }
    {
        search(p, who, act, bytes, again, &mut self.cache, space, t)
    }

    /// Gives a block of an arena `nb` bytes, for a thread whose cache this is (`arena_holds::resize_held`).
    pub fn resize<P: Places, K: Kernel>(
        &mut self,
        p: &mut P,
        a: u8,
        who: &Who,
        b: Block,
        nb: Size,
        space: &mut Space<K>,
        t: &Tunables,
    ) -> Result<HeldResize, Block>
        requires writer { P.ways.writes p.old who.now }
        requires size { IsRequestSize nb }
        requires held { IsHeld b }
        requires arena { b.arena ≡ Some a }
        requires tuned { IsTuned t.now }
        requires served { IsServed P.ways t.now (both_of (λ weigh. weigh b) (in_cache self.old))
            (standing p.old space.old) }
        ensures resizes { IfOk result (λ r.
            Resizes (setting P.ways (means P.Hold.fast P.Hold.dials K.port) P.Dial.dials)
            t.now who.now a b nb
            self.old (standing p.old space.old) r.hold r.resized self.new
            (standing p.new space.new)) }
        ensures short { IfErr result (λ back.
            ResizesShort (setting P.ways (means P.Hold.fast P.Hold.dials K.port) P.Dial.dials) b nb
            self.old (standing p.old space.old) back self.new (standing p.new space.new)) }
        ensures left { OnErr result
            (RunsShort (setting P.ways (means P.Hold.fast P.Hold.dials K.port) P.Dial.dials) t.now
            who.now (hold_of a (Resize b.addr b.size nb) self.old)
            (standing p.old space.old) (standing p.new space.new)) }
        ensures structure { structure_of self.new ≡ structure_of self.old }
    {
        resize_held(p, a, who, b, nb, &mut self.cache, space, t)
    }
}
