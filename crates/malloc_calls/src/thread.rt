//! A thread, and its calls.

ghost use Rattle.std.specs.Prelude.{◌≡◌, ℕ, true, false, ◌*◌, ◌-◌, ◌^◌, ◌<◌, ◌≤◌, nat_le, IsSome, None, Some, Ok, IsTrue, IfSome, IfOk, OnOk, OnErr, is_ok, length, ◌⊎◌, slice_index_or};
ghost use Rattle.std.specs.Option.{option_map};
ghost use Rattle.chunk_tags.specs.Sizes.{chunk_size_of, padded_request};
ghost use Rattle.chunk_tags.specs.declared.block.Block.{Block as Piece};
ghost use Rattle.chunk_tags.specs.Tunables.{IsTuned};
ghost use Rattle.address_space.specs.Ports.{Rose};
ghost use Rattle.address_space.specs.Spaces.{space_refusals, map_place};
ghost use Rattle.consolidate_trim.specs.Outside.{means};
ghost use Rattle.own_blocks.specs.Calls.{FitsName, HoldsStill};
ghost use Rattle.own_blocks.specs.LeftCalls.{IsLeft};
ghost use Rattle.thread_cache.specs.Caches.{is_open};
ghost use Rattle.malloc_calls.specs.Mallocs.{malloc_call, calloc_call, posix_memalign_call, is_memalign, IsAlignedName};
ghost use Rattle.arena_core.specs.Replay.{has_lead_in_range};
ghost use Rattle.own_blocks.specs.Frees.{free_call, HoldsOrLoses};
ghost use Rattle.own_blocks.specs.Exits.{exit_call};
ghost use Rattle.malloc_calls.specs.Reallocs.{realloc_call, IfAnswered, has_what_it_needs};
ghost use Rattle.own_blocks.specs.declared.reply.Reply.TheVariants.{Freed, NotYours, Null, Ended};
ghost use Rattle.own_blocks.specs.declared.reply.To.TheVariants.{Cached, Unmapped};
ghost use Rattle.own_blocks.specs.declared.cached.CachedFree.TheVariants.{Done};
ghost use Rattle.own_blocks.specs.declared.reply.Why.TheVariants.{Big, Align, Refused};
ghost use Rattle.arena_holds.specs.Going.{Does};
ghost use Rattle.arena_holds.specs.RunningShort.{RunsShort};
ghost use Rattle.arena_holds.specs.Places.{setting, IsServed, Carries, standing};
ghost use Rattle.own_blocks.specs.Own.{in_own};
ghost use Rattle.own_blocks.specs.Structure.{StaysOpen};
ghost use Rattle.block_names.specs.Names.{has_place, block_at, with_place, with_block, without_block, tidied, IsTable, FarNamesRise};
ghost use Rattle.block_names.specs.Blocks.{IsHeld};
ghost use Rattle.own_blocks.specs.Own.{cached_for, cached_malloc_of, cached_end, cached_free_of};
ghost use Rattle.malloc_calls.specs.Threads.{new_thread, number_of, who_of, own_of, with_own, with_names, names_of, space_of, IsSpaceOf};

use crate::malloc::{calloc, malloc, posix_memalign};
use crate::realloc::realloc;
use address_space::{Kernel, Space};
use arena_core::Who;
use arena_holds::Places;
use block_names::FarNames;
use chunk_tags::{Addr, Block, NoMemory, Tunables};
use own_blocks::exit::exit;
use own_blocks::free::free;
use own_blocks::{CachedFree, Own, Reply};
use std::alloc::Global;
use thread_cache::Cache;

/// A thread of a trace: its number, its cache, its blocks by name, and its address space.
#[derive(Drop)]
pub struct Thread<K: Kernel> {
    number: u8,
    pub(crate) own: Own,
    space: Space<K>,
}

impl<K: Kernel> Thread<K> {
    /// A thread that begins: its cache is closed, and it has no blocks.
    pub fn new(alloc: Global, number: u8, space: Space<K>) -> Thread<K>
        requires { IsSpaceOf number space }
        ensures { result ≡ new_thread number space }
    {
        Thread {
            number,
            own: Own::new(alloc),
            space,
        }
    }

    /// Makes a place for a name. Memory is wanted only where the name has none; after `NoMemory` nothing changed.
    pub fn ready(&mut self, name: u32) -> Result<(), NoMemory>
        ensures ok { OnOk result
            (self.new ≡ with_names (with_place name (names_of self.old)) self.old) }
        ensures err { OnErr result (self.new ≡ self.old) }
        ensures full { OnErr result (has_place (names_of self.old) name ≡ false) }
    {
        self.own.names.ready(name)
    }

    /// Lets the place of a name go, where that is one of its own and empty; nothing else changes.
    pub fn tidy(&mut self, name: u32)
        ensures { self.new ≡ with_names (tidied name (names_of self.old)) self.old }
    {
        self.own.names.tidy(name);
    }

    /// Whether a name has a place: whether it was made ready, and not tidied since.
    pub fn has_room(&self, name: u32) -> bool
        ensures { result ≡ has_place (names_of self.now) name }
    {
        self.own.names.has_room(name)
    }

    /// How many names have their places in the row: those below this.
    pub fn row(&self) -> u32
        ensures { result ≡ length (names_of self.now).near }
    {
        self.own.names.row()
    }

    /// The block of a name in the row.
    pub fn in_row(&self, name: u32) -> Option<Block>
        ensures { result ≡ slice_index_or (names_of self.now).near name None }
    {
        self.own.names.in_row(name)
    }

    /// The places of the far names, by name.
    pub fn far(&self) -> &FarNames
        ensures { result.now ≡ (names_of self.now).far }
    {
        self.own.names.far()
    }

    /// A copy of the block of a name. `None` exactly where the name holds nothing.
    pub fn block(&self, name: u32) -> Option<Block>
        ensures { result ≡ block_at (names_of self.now) name }
    {
        self.own.names.get(name)
    }

    /// The thread's cache.
    pub fn cache(&self) -> &Cache
        ensures { result.now ≡ (own_of self.now).cache }
    {
        self.own.cache.cache()
    }

    /// Laws; the call does nothing. The place of the next mapping is an address, each name that holds something holds a
    /// chunk, and no name has two places.
    pub fn laws(&self)
        ensures place { map_place (space_of self.now) < 2 ^ 64 }
        ensures held { IsTable (names_of self.now) }
        ensures rising { FarNamesRise (names_of self.now) }
    {
        let _ = self.space.map_place();
        self.own.names.laws();
    }

    /// malloc, where the cache has a chunk for it. `None` exactly where the size is past `MAX_REQUEST`, its chunk is too large
    /// for the cache, or that list is empty; then nothing changed.
    pub fn cached_malloc(&mut self, name: u32, size: u64) -> Option<Addr>
        requires room { IsTrue (has_place (names_of self.old) name) }
        requires empty { block_at (names_of self.old) name ≡ None }
        ensures addr { result ≡ option_map (λ b. b.addr) (cached_for size (own_of self.old).cache) }
        ensures own { self.new ≡ with_own (cached_malloc_of name size (own_of self.old)) self.old }
        ensures fits { FitsName (chunk_size_of size) name (names_of self.new) }
    {
        self.own.cached_malloc(name, size)
    }

    /// free, where the cache takes the block. `NotYours` exactly where the name holds nothing, `NoRoom` exactly where the
    /// cache wouldn't take its block; then nothing changed.
    pub fn cached_free(&mut self, name: u32) -> CachedFree
        ensures end { result ≡ cached_end (own_of self.old) (block_at (names_of self.old) name) }
        ensures own { self.new ≡ with_own (cached_free_of name (own_of self.old)) self.old }
    {
        self.own.cached_free(name)
    }

    /// Takes a block from its name, for another thread. `None` exactly where the name holds nothing.
    pub fn hand_out(&mut self, name: u32) -> Option<Block>
        ensures block { result ≡ block_at (names_of self.old) name }
        ensures names { self.new ≡ with_names (without_block name (names_of self.old)) self.old }
        ensures held { IfSome result IsHeld }
    {
        self.own.names.take(name)
    }

    /// Gives a block of another thread a name, which holds nothing.
    pub fn hand_in(&mut self, name: u32, block: Block)
        requires room { IsTrue (has_place (names_of self.old) name) }
        requires empty { block_at (names_of self.old) name ≡ None }
        requires held { IsHeld block }
        ensures { self.new ≡ with_names (with_block name block (names_of self.old)) self.old }
    {
        self.own.names.put(name, block);
    }

    fn who(&self, line: u64) -> Who
        ensures { result ≡ who_of line self.now }
    {
        Who {
            thread: self.number,
            line,
        }
    }

    /// malloc of a size, under a name that holds nothing, in a line of the trace (glibc's `__libc_malloc`). After `NoMemory`
    /// the names hold what they held; it never comes where the size is too big, or the cache has a chunk for it.
    pub fn malloc<P: Places>(
        &mut self,
        p: &mut P,
        line: u64,
        name: u32,
        size: u64,
        t: &Tunables,
    ) -> Result<Reply, NoMemory>
        requires room { IsTrue (has_place (names_of self.old) name) }
        requires empty { block_at (names_of self.old) name ≡ None }
        requires tuned { IsTuned t.now }
        requires writer { P.ways.writes p.old (who_of line self.old) }
        requires served { IsServed P.ways t.now (in_own (own_of self.old))
            (standing p.old (space_of self.old)) }
        ensures does { IfOk result (λ reply.
            Does (setting P.ways (means P.Hold.fast P.Hold.dials K.port) P.Dial.dials) t.now
            (who_of line self.old)
            (malloc_call t.now (number_of self.old) name size (own_of self.old))
            (standing p.old (space_of self.old))
            (reply, own_of self.new) (standing p.new (space_of self.new))) }
        ensures big { padded_request size ≡ None → result ≡ Ok (Null Big) }
        ensures fits { IfOk result (λ _. FitsName (chunk_size_of size) name (names_of self.new)) }

        // No block is answered only where the kernel refused an ask of this call.
        ensures refused { IfOk result (λ reply. reply ≡ Null Refused
            → Rose (space_refusals K.port (space_of self.old))
            (space_refusals K.port (space_of self.new))) }
        ensures carries { Carries P.ways (is_ok result)
            (in_own (own_of self.old)) (standing p.old (space_of self.old))
            (in_own (own_of self.new)) (standing p.new (space_of self.new)) }
        ensures names { OnErr result (names_of self.new ≡ names_of self.old) }
        ensures left { OnErr result
            (IsLeft (setting P.ways (means P.Hold.fast P.Hold.dials K.port) P.Dial.dials) t.now
            (who_of line self.old)
            (malloc_call t.now (number_of self.old) name size (own_of self.old))
            (standing p.old (space_of self.old)) (standing p.new (space_of self.new))) }
        ensures kept { StaysOpen (own_of self.old).cache (own_of self.new).cache }
        ensures number { number_of self.new ≡ number_of self.old }
        ensures cached { IsSome (cached_for size (own_of self.old).cache) → is_ok result ≡ true }
    {
        let who = self.who(line);
        malloc(&mut self.own, p, &who, name, size, &mut self.space, t)
    }

    /// calloc of `n` members of a size, under a name that holds nothing, in a line of the trace (glibc's `__libc_calloc`): malloc
    /// of the product, past the cache. After `NoMemory` the names hold what they held; it never comes where the product is too
    /// big.
    pub fn calloc<P: Places>(
        &mut self,
        p: &mut P,
        line: u64,
        name: u32,
        n: u64,
        size: u64,
        t: &Tunables,
    ) -> Result<Reply, NoMemory>
        requires room { IsTrue (has_place (names_of self.old) name) }
        requires empty { block_at (names_of self.old) name ≡ None }
        requires tuned { IsTuned t.now }
        requires writer { P.ways.writes p.old (who_of line self.old) }
        requires served { IsServed P.ways t.now (in_own (own_of self.old))
            (standing p.old (space_of self.old)) }
        ensures does { IfOk result (λ reply.
            Does (setting P.ways (means P.Hold.fast P.Hold.dials K.port) P.Dial.dials) t.now
            (who_of line self.old)
            (calloc_call t.now (number_of self.old) name n size (own_of self.old))
            (standing p.old (space_of self.old))
            (reply, own_of self.new) (standing p.new (space_of self.new))) }
        ensures big { padded_request (n * size) ≡ None → result ≡ Ok (Null Big) }
        ensures fits { IfOk result
            (λ _. FitsName (chunk_size_of (n * size)) name (names_of self.new)) }

        // No block is answered only where the kernel refused an ask of this call.
        ensures refused { IfOk result (λ reply. reply ≡ Null Refused
            → Rose (space_refusals K.port (space_of self.old))
            (space_refusals K.port (space_of self.new))) }
        ensures carries { Carries P.ways (is_ok result)
            (in_own (own_of self.old)) (standing p.old (space_of self.old))
            (in_own (own_of self.new)) (standing p.new (space_of self.new)) }
        ensures names { OnErr result (names_of self.new ≡ names_of self.old) }
        ensures left { OnErr result
            (IsLeft (setting P.ways (means P.Hold.fast P.Hold.dials K.port) P.Dial.dials) t.now
            (who_of line self.old)
            (calloc_call t.now (number_of self.old) name n size (own_of self.old))
            (standing p.old (space_of self.old)) (standing p.new (space_of self.new))) }
        ensures kept { StaysOpen (own_of self.old).cache (own_of self.new).cache }
        ensures number { number_of self.new ≡ number_of self.old }
    {
        let who = self.who(line);
        calloc(&mut self.own, p, &who, name, n, size, &mut self.space, t)
    }

    /// posix_memalign of a size, under a name that holds nothing, in a line of the trace (glibc's `__posix_memalign`): from an
    /// alignment of 32 on the user address of the block is a multiple of it. After `NoMemory` the names hold what they held; it
    /// never comes where the size or the alignment is refused, or where the cache has a chunk for the size and the alignment is
    /// at most 16.
    pub fn posix_memalign<P: Places>(
        &mut self,
        p: &mut P,
        line: u64,
        name: u32,
        align: u64,
        size: u64,
        t: &Tunables,
    ) -> Result<Reply, NoMemory>
        requires room { IsTrue (has_place (names_of self.old) name) }
        requires empty { block_at (names_of self.old) name ≡ None }
        requires tuned { IsTuned t.now }
        requires writer { P.ways.writes p.old (who_of line self.old) }
        requires served { IsServed P.ways t.now (in_own (own_of self.old))
            (standing p.old (space_of self.old)) }
        ensures does { IfOk result (λ reply.
            Does (setting P.ways (means P.Hold.fast P.Hold.dials K.port) P.Dial.dials) t.now
            (who_of line self.old)
            (posix_memalign_call t.now (number_of self.old) name align size (own_of self.old))
            (standing p.old (space_of self.old))
            (reply, own_of self.new) (standing p.new (space_of self.new))) }
        ensures big { padded_request size ≡ None → result ≡ Ok (Null Big) }
        ensures fits { IfOk result (λ _. FitsName (chunk_size_of size) name (names_of self.new)) }
        ensures align { IsSome (padded_request size) → is_memalign align ≡ false
            → result ≡ Ok (Null Align) }
        ensures lead { IsSome (padded_request size) → is_memalign align ≡ true → 16 < align
            → has_lead_in_range align (chunk_size_of size) ≡ false → result ≡ Ok (Null Big) }
        ensures aligned { 16 < align → IfOk result (λ _.
            IsAlignedName align name (names_of self.new)) }

        // No block is answered only where the kernel refused an ask of this call.
        ensures refused { IfOk result (λ reply. reply ≡ Null Refused
            → Rose (space_refusals K.port (space_of self.old))
            (space_refusals K.port (space_of self.new))) }
        ensures carries { Carries P.ways (is_ok result)
            (in_own (own_of self.old)) (standing p.old (space_of self.old))
            (in_own (own_of self.new)) (standing p.new (space_of self.new)) }
        ensures names { OnErr result (names_of self.new ≡ names_of self.old) }
        ensures left { OnErr result
            (IsLeft (setting P.ways (means P.Hold.fast P.Hold.dials K.port) P.Dial.dials) t.now
            (who_of line self.old)
            (posix_memalign_call t.now (number_of self.old) name align size (own_of self.old))
            (standing p.old (space_of self.old)) (standing p.new (space_of self.new))) }
        ensures kept { StaysOpen (own_of self.old).cache (own_of self.new).cache }
        ensures number { number_of self.new ≡ number_of self.old }
        ensures cached { align ≤ 16 → IsSome (cached_for size (own_of self.old).cache)
            → is_ok result ≡ true }
    {
        let who = self.who(line);
        posix_memalign(
            &mut self.own,
            p,
            &who,
            name,
            align,
            size,
            &mut self.space,
            t,
        )
    }

    /// realloc of a name's block, in a line of the trace (glibc's `__libc_realloc`); to 0 bytes it is freed. `NotYours` exactly
    /// where the name holds nothing. After `NoMemory` the name holds the block that it had, or another that is large enough, or,
    /// at 0 bytes, nothing where the arena has its block; it never comes where the size is too big, nor for a mapped block that
    /// is freed or has what it needs.
    pub fn realloc<P: Places>(
        &mut self,
        p: &mut P,
        line: u64,
        name: u32,
        size: u64,
        t: &Tunables,
    ) -> Result<Reply, NoMemory>
        requires tuned { IsTuned t.now }
        requires writer { P.ways.writes p.old (who_of line self.old) }
        requires served { IsServed P.ways t.now (in_own (own_of self.old))
            (standing p.old (space_of self.old)) }
        ensures does { IfOk result (λ reply.
            Does (setting P.ways (means P.Hold.fast P.Hold.dials K.port) P.Dial.dials) t.now
            (who_of line self.old)
            (realloc_call t.now (number_of self.old) name size (own_of self.old))
            (standing p.old (space_of self.old))
            (reply, own_of self.new) (standing p.new (space_of self.new))) }
        ensures none { block_at (names_of self.old) name ≡ None → result ≡ Ok NotYours }
        ensures big { IsSome (block_at (names_of self.old) name)
            → padded_request size ≡ None → result ≡ Ok (Null Big) }
        ensures fits { IfOk result (λ reply.
            IfAnswered reply (FitsName (chunk_size_of size) name (names_of self.new))) }

        // No block is answered only where the kernel refused an ask of this call.
        ensures refused { IfOk result (λ reply. reply ≡ Null Refused
            → Rose (space_refusals K.port (space_of self.old))
            (space_refusals K.port (space_of self.new))) }
        ensures carries { Carries P.ways (is_ok result)
            (in_own (own_of self.old)) (standing p.old (space_of self.old))
            (in_own (own_of self.new)) (standing p.new (space_of self.new)) }
        ensures others { (n : ℕ) → (n ≡ name → ⊥)
            → block_at (names_of self.new) n ≡ block_at (names_of self.old) n }
        ensures left { OnErr result
            (IsLeft (setting P.ways (means P.Hold.fast P.Hold.dials K.port) P.Dial.dials) t.now
            (who_of line self.old)
            (realloc_call t.now (number_of self.old) name size (own_of self.old))
            (standing p.old (space_of self.old)) (standing p.new (space_of self.new))) }
        ensures kept { StaysOpen (own_of self.old).cache (own_of self.new).cache }
        ensures back { (size ≡ 0 → ⊥) → OnErr result
            (HoldsStill (chunk_size_of size) name (names_of self.old) (names_of self.new)) }
        ensures lost { size ≡ 0 → OnErr result
            (HoldsOrLoses (setting P.ways (means P.Hold.fast P.Hold.dials K.port) P.Dial.dials)
            t.now (who_of line self.old) name (names_of self.old) (names_of self.new)
            (standing p.new (space_of self.new))) }
        ensures cache { size ≡ 0 → is_open (own_of self.old).cache ≡ true
            → OnErr result ((own_of self.new).cache ≡ (own_of self.old).cache) }
        ensures unmapped { size ≡ 0 → (b : Piece) → block_at (names_of self.old) name ≡ Some b
            → b.arena ≡ None → result ≡ Ok (Freed Unmapped) }
        ensures mapped { (b : Piece) → block_at (names_of self.old) name ≡ Some b
            → b.arena ≡ None → has_what_it_needs (chunk_size_of size) b ≡ true
            → is_ok result ≡ true }
        ensures number { number_of self.new ≡ number_of self.old }
    {
        let who = self.who(line);
        realloc(&mut self.own, p, &who, name, size, &mut self.space, t)
    }

    /// free of a name's block, in a line of the trace (glibc's `__libc_free`). `NotYours` exactly where the name holds nothing.
    /// After `NoMemory` the name holds its block, or nothing where its arena has that; it never comes for a mapped block, one that
    /// the cache takes, or a name that holds nothing.
    pub fn free<P: Places>(
        &mut self,
        p: &mut P,
        line: u64,
        name: u32,
        t: &Tunables,
    ) -> Result<Reply, NoMemory>
        requires tuned { IsTuned t.now }
        requires writer { P.ways.writes p.old (who_of line self.old) }
        requires served { IsServed P.ways t.now (in_own (own_of self.old))
            (standing p.old (space_of self.old)) }
        ensures does { IfOk result (λ reply.
            Does (setting P.ways (means P.Hold.fast P.Hold.dials K.port) P.Dial.dials) t.now
            (who_of line self.old) (free_call t.now (number_of self.old) name (own_of self.old))
            (standing p.old (space_of self.old))
            (reply, own_of self.new) (standing p.new (space_of self.new))) }
        ensures none { block_at (names_of self.old) name ≡ None → result ≡ Ok NotYours }
        ensures mapped { (b : Piece) → block_at (names_of self.old) name ≡ Some b → b.arena ≡ None
            → result ≡ Ok (Freed Unmapped) }
        ensures carries { Carries P.ways (is_ok result)
            (in_own (own_of self.old)) (standing p.old (space_of self.old))
            (in_own (own_of self.new)) (standing p.new (space_of self.new)) }
        ensures names { OnErr result
            (HoldsOrLoses (setting P.ways (means P.Hold.fast P.Hold.dials K.port) P.Dial.dials)
            t.now (who_of line self.old) name (names_of self.old) (names_of self.new)
            (standing p.new (space_of self.new))) }
        ensures cached { cached_end (own_of self.old) (block_at (names_of self.old) name) ≡ Done
            → result ≡ Ok (Freed Cached) }
        ensures fast { (b : Piece) → (a : ℕ) → block_at (names_of self.old) name ≡ Some b
            → b.arena ≡ Some a → is_open (own_of self.old).cache ≡ true
            → nat_le b.size t.now.max_fast ≡ true → P.ways.room p.old a → is_ok result ≡ true }
        ensures left { OnErr result
            (IsLeft (setting P.ways (means P.Hold.fast P.Hold.dials K.port) P.Dial.dials) t.now
            (who_of line self.old) (free_call t.now (number_of self.old) name (own_of self.old))
            (standing p.old (space_of self.old)) (standing p.new (space_of self.new))) }
        ensures kept { StaysOpen (own_of self.old).cache (own_of self.new).cache }
        ensures cache { is_open (own_of self.old).cache ≡ true
            → OnErr result ((own_of self.new).cache ≡ (own_of self.old).cache) }
        ensures number { number_of self.new ≡ number_of self.old }
    {
        let who = self.who(line);
        free(&mut self.own, p, &who, name, &mut self.space, t)
    }

    /// The end of a thread, in a line of the trace (glibc's `__malloc_arena_thread_freeres`): its cache is closed, and what it
    /// had is released; then the thread leaves its arena. Its named blocks stay. `NoMemory` never comes where the cache is closed.
    pub fn exit<P: Places>(&mut self, p: &mut P, line: u64, t: &Tunables) -> Result<Reply, NoMemory>
        requires tuned { IsTuned t.now }
        requires writer { P.ways.writes p.old (who_of line self.old) }
        requires served { IsServed P.ways t.now (in_own (own_of self.old))
            (standing p.old (space_of self.old)) }
        ensures does { IfOk result (λ reply.
            Does (setting P.ways (means P.Hold.fast P.Hold.dials K.port) P.Dial.dials) t.now
            (who_of line self.old) (exit_call t.now (number_of self.old) (own_of self.old))
            (standing p.old (space_of self.old))
            (reply, own_of self.new) (standing p.new (space_of self.new))) }
        ensures ended { IfOk result (λ reply. reply ≡ Ended) }
        ensures closed { OnOk result ((own_of self.new).cache ≡ None) }
        ensures carries { Carries P.ways (is_ok result)
            (in_own (own_of self.old)) (standing p.old (space_of self.old))
            (in_own (own_of self.new)) (standing p.new (space_of self.new)) }
        ensures names { names_of self.new ≡ names_of self.old }
        ensures closed_before { (own_of self.old).cache ≡ None → result ≡ Ok Ended }
        ensures left { OnErr result
            (RunsShort (setting P.ways (means P.Hold.fast P.Hold.dials K.port) P.Dial.dials) t.now
            (who_of line self.old) (exit_call t.now (number_of self.old) (own_of self.old))
            (standing p.old (space_of self.old)) (standing p.new (space_of self.new))) }
        ensures number { number_of self.new ≡ number_of self.old }
    {
        let who = self.who(line);
        exit(&mut self.own, p, &who, &mut self.space, t)
    }
}
