//! What a thread has of its own.

ghost use Rattle.std.specs.Prelude.{◌≡◌, ◌<◌, None, IsSome, IfSome, IfNone, IsTrue};
ghost use Rattle.std.specs.Option.{option_map};
ghost use Rattle.chunk_tags.specs.Sizes.{IsChunkSize, chunk_size_of};
ghost use Rattle.own_blocks.specs.Calls.{FitsName};
ghost use Rattle.block_names.specs.Names.{has_place, block_at};
ghost use Rattle.block_names.specs.Blocks.{IsHeld};
ghost use Rattle.own_blocks.specs.Own.{new_own, newest_of_size, without_newest_of, cached_for, cached_malloc_of, cached_end, cached_free_of};

use crate::cached::CachedFree;
use crate::own_cache::OwnCache;
use block_names::Names;
use chunk_tags::{Addr, Block, MAX_CACHED, Size, cache_index, request_size};
use std::alloc::Global;

/// What a thread has of its own: its cache, and its blocks by name.
#[derive(Debug, Drop)]
pub struct Own {
    pub cache: OwnCache,
    pub names: Names,
}

/// The newest block of the list for a size, which leaves the cache. `None` exactly where the size isn't cached or its list
/// is empty.
pub fn take_newest(cache: &mut OwnCache, nb: Size) -> Option<Block>
    requires { IsChunkSize nb }
    ensures newest { result ≡ newest_of_size nb cache.old }
    ensures rest { cache.new ≡ without_newest_of nb cache.old }
    ensures held { IfSome result IsHeld }
    ensures size { IfSome result (λ b. b.size ≡ nb) }
    ensures arena { IfSome result (λ b. IsSome b.arena) }
    ensures unchanged { IfNone result (cache.new ≡ cache.old) }
{
    if nb > MAX_CACHED {
        return None;
    }
    cache.get(cache_index(nb))
}

impl Own {
    /// A closed cache and no blocks.
    pub fn new(alloc: Global) -> Own
        ensures { result ≡ new_own }
    {
        Own {
            cache: OwnCache::closed(alloc),
            names: Names::new(alloc),
        }
    }

    /// malloc, where the cache has a chunk for it; else nothing changes.
    #[tactic(auto, using(block_names::proofs::Tables::at_same))]
    pub fn cached_malloc(&mut self, name: u32, size: u64) -> Option<Addr>
        requires room { IsTrue (has_place self.old.names name) }
        requires empty { block_at self.old.names name ≡ None }
        ensures addr { result ≡ option_map (λ b. b.addr) (cached_for size self.old.cache) }
        ensures own { self.new ≡ cached_malloc_of name size self.old }
        ensures fits { FitsName (chunk_size_of size) name self.new.names }
    {
        let block = take_newest(&mut self.cache, request_size(size)?)?;
        let addr = block.addr;
        self.names.put(name, block);
        Some(addr)
    }

    /// free, where the cache takes the block; else nothing changes.
    #[tactic(auto, using(block_names::proofs::Tables::put_back, block_names::proofs::Tables::place_left, block_names::proofs::Tables::without_none, block_names::proofs::Tables::nothing_taken))]
    pub fn cached_free(&mut self, name: u32) -> CachedFree
        ensures end { result ≡ cached_end self.old (block_at self.old.names name) }
        ensures own { self.new ≡ cached_free_of name self.old }
    {
        match self.names.take(name) {
            None => CachedFree::NotYours,
            Some(block) => match self.cache.put(block) {
                Ok(()) => CachedFree::Done,
                Err(back) => {
                    self.names.put(name, back);
                    CachedFree::NoRoom
                }
            },
        }
    }
}
