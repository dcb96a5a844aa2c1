ghost use Rattle.std.specs.Prelude.{◌≡◌};
ghost use Rattle.chunk_tags.specs.Sizes.{IsChunkSize};
ghost use Rattle.block_names.specs.Blocks.{IsHeld};

use super::*;
use block_names::Names;
use chunk_tags::{Addr, Block, Mode, Size, Tunables};
use std::alloc::Global;
use std::test::Fail;

/// A chunk of main in somebody's hand.
fn chunk(addr: u64, size: u64) -> Block
    requires { IsChunkSize size }
    ensures held { IsHeld result }
{
    Block {
        addr: Addr(addr),
        size: Size(size),
        lead: 0,
        arena: Some(0),
    }
}

/// An open cache, and places for three names.
fn own_with_places(alloc: Global) -> Result<Own, Fail> {
    let mut own = Own::new(alloc);
    own.names.ready(2)?;
    let tunables = Tunables::defaults(Mode::Serial);
    own.cache.open(chunk(0x5555_5555_9000, 656), &tunables)?;
    Ok(own)
}

/// Gives a block a name, where the name has a place and holds nothing.
fn give(names: &mut Names, name: u32, block: Block)
    requires { IsHeld block }
{
    if names.has_room(name) && names.get(name).is_none() {
        names.put(name, block);
    }
}

/// malloc from the cache alone, where the name has a place and holds nothing.
fn malloc_cached(own: &mut Own, name: u32, size: u64) -> Option<Addr> {
    if own.names.has_room(name) && own.names.get(name).is_none() {
        own.cached_malloc(name, size)
    } else {
        None
    }
}

#[test]
fn the_cache_alone_answers(rt: HostRuntime) -> Result<(), Fail> {
    let mut own = own_with_places(rt.alloc())?;
    give(&mut own.names, 0, chunk(0x5555_5555_9290, 32));
    give(&mut own.names, 1, chunk(0x5555_5555_92b0, 2016));
    assert_eq!(rt; own.cached_free(2), CachedFree::NotYours);
    assert_eq!(rt; own.cached_free(1), CachedFree::NoRoom);
    assert_eq!(rt; own.cached_free(0), CachedFree::Done);
    assert_eq!(rt; own.cached_free(0), CachedFree::NotYours);
    assert_eq!(rt; malloc_cached(&mut own, 2, 2000), None);
    assert_eq!(rt; malloc_cached(&mut own, 2, 25), None);
    assert_eq!(rt;
        malloc_cached(&mut own, 2, 24),
        Some(Addr(0x5555_5555_9290))
    );
    assert_eq!(rt; malloc_cached(&mut own, 0, 24), None);
    Ok(())
}
