//! A thread's cache.

ghost use Rattle.std.specs.Prelude.{◌≡◌, ◌<◌, ◌≤◌, ◌&&◌, false, [], ◌++◌, map, None, is_some, is_ok, option_to_list, option_copied, OnOk, OnErr, IfOk, IfErr, IfSome, IfNone};
ghost use Rattle.chunk_tags.specs.Sizes.{IsChunkSize, cache_index_of};
ghost use Rattle.thread_cache.specs.Caches.{opened_cache, is_open, has_room, takes, newest, without_newest, with_newest, blocks_of, next_drained, without_next, structure_of, addresses_of, cached_tiles};
ghost use Rattle.thread_cache.specs.Held.{IsCachedAt, IsSoundCache};

use crate::open::OpenCache;
use chunk_tags::{Addr, Block, NoMemory, Size, Tile};
use std::alloc::Global;
use std::marker::Model;

/// The chunk of a cache's structure: a request of 640 bytes, glibc's `sizeof (tcache_perthread_struct)`.
pub const STRUCTURE_SIZE: Size = Size(656);

/// Want of memory for the lists of a cache; the chunk for its structure comes back (this project's own).
#[derive(Debug, Drop)]
pub struct CacheShort {
    /// The chunk that was given to `open`.
    pub structure: Block,
}

/// A thread's cache (glibc's `tcache`): closed, or open with 64 lists of freed chunks, each newest first.
/// A closed cache has no room.
#[derive(Debug, Drop)]
pub struct Cache {
    open: Option<OpenCache>,
}

impl Model for Cache {
    ghost use Rattle.thread_cache.specs.Caches.{CacheValue};

    ghost Value = { CacheValue };

    ghost view = { λ c. c.open };
}

impl Cache {
    /// A closed cache.
    pub fn closed() -> Cache
        ensures { result ≡ None }
    {
        Cache { open: None }
    }

    /// Opens the cache, with the chunk of its structure, at most `count` blocks a list, and `bins` lists that are
    /// used (glibc's `tcache_init`). All room is reserved here. Where memory is short the cache stays closed.
    pub fn open(
        &mut self,
        alloc: Global,
        structure: Block,
        count: u16,
        bins: u8,
    ) -> Result<(), CacheShort>
        requires closed { is_open self.old ≡ false }
        requires count { count ≤ 127 }
        requires bins { bins ≤ 64 }
        ensures ok { OnOk result (self.new ≡ opened_cache structure count bins) }
        ensures err { IfErr result (λ short. short.structure ≡ structure) }
        ensures unchanged { OnErr result (self.new ≡ self.old) }
        ensures sound { IfSome self.new IsSoundCache }
    {
        match OpenCache::new(alloc, structure, count, bins) {
            Ok(open) => {
                self.open = Some(open);
                Ok(())
            }
            Err(structure) => Err(CacheShort { structure }),
        }
    }

    /// A law; the call does nothing. An open cache is sound.
    pub fn laws(&self)
        ensures { IfSome self.now IsSoundCache }
    {
        if let Some(open) = &self.open {
            open.laws();
        }
    }

    /// Whether the cache is open.
    pub fn is_open(&self) -> bool
        ensures { result ≡ is_open self.now }
    {
        self.open.is_some()
    }

    /// Whether one more chunk of this size is taken: the cache is open, the size has a list that is used, and that
    /// list is shorter than the count.
    pub fn has_room(&self, s: Size) -> bool
        ensures room { result ≡ has_room self.now s }
        ensures sound { IfSome self.now IsSoundCache }
    {
        match &self.open {
            None => false,
            Some(open) => open.has_room(s),
        }
    }

    /// The newest block of a list, which leaves it (glibc's `tcache_get`). `None` exactly where the list is empty,
    /// as each is in a closed cache.
    pub fn get(&mut self, bin: u8) -> Option<Block>
        requires { bin < 64 }
        ensures newest { result ≡ newest self.old bin }
        ensures rest { self.new ≡ without_newest self.old bin }
        ensures cached { IfSome result (IsCachedAt bin) }
        ensures unchanged { IfNone result (self.new ≡ self.old) }
        ensures sound { IfSome self.new IsSoundCache }
    {
        match &mut self.open {
            None => None,
            Some(open) => open.get(bin),
        }
    }

    /// Puts a block at the front of the list for its size (glibc's `tcache_put`). It comes back exactly where the
    /// cache has no room for its size or the block is mapped.
    pub fn put(&mut self, b: Block) -> Result<(), Block>
        requires { IsChunkSize b.size }
        ensures taken { is_ok result ≡ takes self.old b }
        ensures ok { OnOk result (self.new ≡ with_newest self.old b) }
        ensures err { IfErr result (λ back. back ≡ b) }
        ensures unchanged { OnErr result (self.new ≡ self.old) }
        ensures sound { OnOk result (IfSome self.new IsSoundCache) }
    {
        match &mut self.open {
            Some(open) if b.arena.is_some() && open.has_room(b.size) => {
                open.put(b);
                Ok(())
            }
            _ => Err(b),
        }
    }

    /// The newest block of the lowest list that isn't empty, which leaves it (a step of glibc's
    /// `tcache_thread_shutdown`). `None` exactly where all lists are empty.
    pub fn drain(&mut self) -> Option<Block>
        ensures next { result ≡ next_drained self.old }
        ensures rest { self.new ≡ without_next self.old }

        // The blocks come in the order in which `blocks_of` has them, until none is left.
        ensures order { blocks_of self.old ≡ option_to_list result ++ blocks_of self.new }
        ensures empty { IfNone result (blocks_of self.old ≡ []) }
        ensures cached { IfSome result (λ b. IsCachedAt (cache_index_of b.size) b) }
        ensures unchanged { IfNone result (self.new ≡ self.old) }
        ensures sound { IfSome self.new IsSoundCache }
    {
        match &mut self.open {
            None => None,
            Some(open) => open.drain(),
        }
    }

    /// Closes the cache, whose lists are empty, and gives the chunk of its structure. `None` exactly where it was
    /// closed.
    pub fn close(&mut self) -> Option<Block>
        requires { blocks_of self.old ≡ [] }
        ensures structure { result ≡ structure_of self.old }
        ensures closed { self.new ≡ None }
    {
        let open = self.open.take()?;
        Some(open.into_structure())
    }

    /// The chunk of an open cache's structure.
    pub fn structure(&self) -> Option<&Block>
        ensures { option_copied result ≡ structure_of self.now }
    {
        match &self.open {
            None => None,
            Some(open) => Some(open.structure()),
        }
    }

    /// The addresses in each of the 64 lists, newest first. A closed cache has no lists.
    pub fn lists(&self, alloc: Global) -> Result<Vec<Vec<Addr>>, NoMemory>
        ensures addresses { IfOk result (λ v.
            map (λ list. list.items) v.items ≡ addresses_of self.now) }
        ensures sound { IfSome self.now IsSoundCache }
    {
        match &self.open {
            None => Ok(Vec::new(alloc)),
            Some(open) => open.addresses(alloc),
        }
    }

    /// The blocks as tiles: lists ascending, newest first. A closed cache has none.
    pub fn tiles(&self, alloc: Global) -> Result<Vec<Tile>, NoMemory>
        ensures { IfOk result (λ v. v.items ≡ cached_tiles self.now) }
    {
        match &self.open {
            None => Ok(Vec::new(alloc)),
            Some(open) => open.tiles(alloc),
        }
    }
}
