//! The lists of an open cache.

ghost use Rattle.std.specs.Prelude.{◌≡◌, ◌<◌, ◌≤◌, [], ◌++◌, map, Some, option_to_list, IsSome, IsTrue, IfOk, IfErr, IfSome, IfNone};
ghost use Rattle.std.specs.List.{All};
ghost use Rattle.chunk_tags.specs.Sizes.{IsChunkSize, cache_index_of};
ghost use Rattle.thread_cache.specs.Caches.{opened_cache, has_room, newest, without_newest, with_newest, empty_cache_lists, blocks_of, next_drained, without_next, addresses_of, cached_tiles};
ghost use Rattle.thread_cache.specs.Held.{IsCachedAt, IsSoundCache};
ghost use Rattle.thread_cache.specs.Stacks.{Stacked};

use crate::stack::Stack;
use chunk_tags::{Addr, Block, MAX_CACHED, NoMemory, Size, Tile, cache_index};
use std::alloc::{AllocError, Global};
use std::marker::Model;

/// How many lists a cache has: glibc's `TCACHE_MAX_BINS`.
const LISTS: usize = 64;

/// An open cache: the chunk of its structure, and its lists (glibc's `tcache_perthread_struct`).
#[derive(Debug, Drop)]
pub struct OpenCache {
    structure: Block,
    count: u16,
    bins: u8,
    lists: Vec<Stack>,
}

impl Model for OpenCache {
    ghost use Rattle.thread_cache.specs.Caches.{Opened};
    ghost use Rattle.thread_cache.specs.Stacks.{seen, IsKept};

    ghost Value = { Opened };

    ghost view = { λ c. seen c.structure c.count c.bins c.lists.items };

    ghost invariant = { λ c. IsKept c.structure c.count c.bins c.lists.items };
}

/// As many empty lists as a cache has, each with room for `count` blocks.
#[tactic(auto, unfolding(crate::specs::Caches::empty_cache_lists))]
fn reserved_lists(alloc: Global, count: u16) -> Result<Vec<Stack>, AllocError>
    ensures empty { IfOk result (λ v. map (λ s. s.blocks) v.items ≡ empty_cache_lists) }
    ensures room { IfOk result (λ v. All (λ s. count ≤ s.room) v.items) }
{
    let mut lists = Vec::with_capacity(alloc, LISTS)?;
    for i in 0..LISTS {
        lists.push(Stack::with_room(alloc, count)?)?;
    }
    Ok(lists)
}

impl OpenCache {
    /// A cache with empty lists, all of whose room is reserved; the structure comes back where memory is short.
    pub fn new(alloc: Global, structure: Block, count: u16, bins: u8) -> Result<OpenCache, Block>
        requires count { count ≤ 127 }
        requires bins { bins ≤ 64 }
        ensures ok { IfOk result (λ c. Some c ≡ opened_cache structure count bins) }
        ensures sound { IfOk result IsSoundCache }
        ensures err { IfErr result (λ back. back ≡ structure) }
    {
        match reserved_lists(alloc, count) {
            Ok(lists) => Ok(OpenCache {
                structure,
                count,
                bins,
                lists,
            }),
            Err(AllocError) => Err(structure),
        }
    }

    /// The chunk of the structure.
    pub fn structure(&self) -> &Block
        ensures { result.now ≡ self.now.structure }
    {
        &self.structure
    }

    /// A law; the call does nothing. The lists are sound.
    pub fn laws(&self)
        ensures { IsSoundCache self.now }
    {
        let _ = &self.lists;
    }

    /// Whether one more chunk of this size is taken.
    pub fn has_room(&self, s: Size) -> bool
        ensures room { result ≡ has_room (Some self.now) s }
        ensures sound { IsSoundCache self.now }
    {
        let used = self.bins;
        if s > MAX_CACHED {
            return false;
        }
        let bin = cache_index(s);
        bin < used && self.lists[usize::from(bin)].len() < usize::from(self.count)
    }

    /// The newest block of a list, which leaves it.
    pub fn get(&mut self, bin: u8) -> Option<Block>
        requires { bin < 64 }
        ensures newest { result ≡ newest (Some self.old) bin }
        ensures rest { Some self.new ≡ without_newest (Some self.old) bin }
        ensures cached { IfSome result (IsCachedAt bin) }
        ensures sound { IsSoundCache self.new }
    {
        let list = &mut self.lists[usize::from(bin)];
        list.pop()
    }

    /// Puts a block at the front of the list for its size, which has room.
    pub fn put(&mut self, b: Block)
        requires room { IsTrue (has_room (Some self.old) b.size) }
        requires chunk { IsChunkSize b.size }
        requires arena { IsSome b.arena }
        ensures put { Some self.new ≡ with_newest (Some self.old) b }
        ensures sound { IsSoundCache self.new }
    {
        let list = &mut self.lists[usize::from(cache_index(b.size))];
        list.push(b);
    }

    /// The newest block of the lowest list that isn't empty, which leaves it.
    pub fn drain(&mut self) -> Option<Block>
        ensures next { result ≡ next_drained (Some self.old) }
        ensures rest { Some self.new ≡ without_next (Some self.old) }
        ensures empty { IfNone result (blocks_of (Some self.old) ≡ []) }
        ensures order { blocks_of (Some self.old)
            ≡ option_to_list result ++ blocks_of (Some self.new) }
        ensures cached { IfSome result (λ b. IsCachedAt (cache_index_of b.size) b) }
        ensures sound { IsSoundCache self.new }
        ensures unchanged { IfNone result (self.new ≡ self.old) }
    {
        for bin in 0..self.lists.len() as u8 {
            if let Some(block) = self.get(bin) {
                return Some(block);
            }
        }
        None
    }

    /// The chunk of the structure, where the cache ends.
    pub fn into_structure(self) -> Block
        ensures { result ≡ self.structure }
    {
        self.structure
    }

    /// The addresses in each list, newest first.
    pub fn addresses(&self, alloc: Global) -> Result<Vec<Vec<Addr>>, NoMemory>
        ensures addresses { IfOk result (λ v.
            map (λ l. l.items) v.items ≡ addresses_of (Some self.now)) }
        ensures sound { IsSoundCache self.now }
    {
        let mut lists = Vec::with_capacity(alloc, self.lists.len())?;
        for list in &self.lists {
            lists.push(list.addresses(alloc)?)?;
        }
        Ok(lists)
    }

    /// The blocks as tiles: lists ascending, newest first.
    pub fn tiles(&self, alloc: Global) -> Result<Vec<Tile>, NoMemory>
        ensures { IfOk result (λ v. v.items ≡ cached_tiles (Some self.now)) }
    {
        let mut tiles = Vec::new(alloc);
        for list in &self.lists {
            tiles.extend_from_slice(&list.tiles(alloc)?)?;
        }
        Ok(tiles)
    }
}
