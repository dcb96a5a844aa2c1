//! A thread's cache: what it takes and gives, and its end.

ghost use Rattle.std.specs.Prelude.{◌≡◌, [], OnOk};
ghost use Rattle.thread_cache.specs.Caches.{blocks_of};

use chunk_tags::{Addr, Block, NoMemory, Size};
use std::alloc::Global;
use std::process::Abort;
use std::test::Fail;
use thread_cache::{Cache, CacheShort};

/// The chunks of the first eight blocks of 24 bytes.
const SMALL: [u64; 8] = [
    0x5555_5555_9290,
    0x5555_5555_92b0,
    0x5555_5555_92d0,
    0x5555_5555_92f0,
    0x5555_5555_9310,
    0x5555_5555_9330,
    0x5555_5555_9350,
    0x5555_5555_9370,
];

fn structure() -> Block {
    Block {
        addr: Addr(0x5555_5555_9000),
        size: Size(656),
        lead: 0,
        arena: Some(0),
    }
}

/// A block of an arena.
fn block(addr: u64, size: u64) -> Block
    ensures { result.size ≡ size }
{
    Block {
        addr: Addr(addr),
        size: Size(size),
        lead: 0,
        arena: Some(1),
    }
}

/// The address of a block, where there is one.
fn address_of(block: Option<Block>) -> Option<Addr> {
    Some(block?.addr)
}

/// A cache with lists of seven blocks for each size that is cached.
fn open_cache(alloc: Global) -> Result<Cache, CacheShort> {
    let mut cache = Cache::closed();
    cache.open(alloc, structure(), 7, 64)?;
    Ok(cache)
}

#[test]
fn eight_frees_fill_a_list(rt: HostRuntime) -> Result<(), Fail> {
    let mut cache = open_cache(rt.alloc())?;
    for addr in &SMALL[..7] {
        assert!(rt; cache.put(block(*addr, 32)).is_ok(), "{addr:x}");
    }
    let back = cache.put(block(SMALL[7], 32)).err();
    assert_eq!(rt; address_of(back), Some(Addr(SMALL[7])));
    for addr in SMALL[..7].iter().rev() {
        assert_eq!(rt; address_of(cache.get(0)), Some(Addr(*addr)));
    }
    assert!(rt; cache.get(0).is_none());
    Ok(())
}

#[test]
fn room_is_for_used_lists_alone(rt: HostRuntime) -> Result<(), Fail> {
    for (count, bins, size, room) in [
        (7, 64, 32, true),
        (7, 64, 1040, true),
        (7, 64, 1056, false),
        (7, 63, 1040, false),
        (7, 1, 32, true),
        (7, 1, 48, false),
        (7, 0, 32, false),
        (1, 2, 48, true),
        (0, 64, 32, false),
    ] {
        let mut cache = Cache::closed();
        let closed = cache.has_room(Size(size));
        cache.open(rt.alloc(), structure(), count, bins)?;
        assert_eq!(rt;
            (closed, cache.has_room(Size(size))),
            (false, room),
            "{count} {bins} {size}"
        );
    }
    Ok(())
}

#[test]
fn closed_caches_take_nothing(rt: HostRuntime) -> Result<(), Fail> {
    let mut cache = Cache::closed();
    let lists = cache.lists(rt.alloc())?.len();
    assert_eq!(rt;
        (cache.is_open(), cache.structure().is_none(), lists),
        (false, true, 0)
    );
    let got = cache.get(0).is_none();
    let refused = cache.put(block(SMALL[0], 32)).is_err();
    assert_eq!(rt; (got, refused), (true, true));
    Ok(())
}

#[test]
fn mapped_blocks_are_not_cached(rt: HostRuntime) -> Result<(), Fail> {
    let mut cache = open_cache(rt.alloc())?;
    assert!(rt; cache.is_open());
    let mapped = Block {
        addr: Addr(0x7000_0000_0010),
        size: Size(96),
        lead: 16,
        arena: None,
    };
    let back = cache.put(mapped).err().map(|b| (b.addr, b.lead));
    assert_eq!(rt; back, Some((Addr(0x7000_0000_0010), 16)));
    assert_eq!(rt;
        cache.lists(rt.alloc())?.iter().map(|list| list.len()).max(),
        Some(0)
    );
    Ok(())
}

/// A cache with four blocks of three sizes.
fn with_four_blocks(rt: &impl Abort, alloc: Global) -> Result<Cache, CacheShort> {
    let mut cache = open_cache(alloc)?;
    for (addr, size) in [(0x1040, 1040), (0x2000, 48), (0x3000, 32), (0x4000, 48)] {
        assert!(rt; cache.put(block(addr, size)).is_ok());
    }
    Ok(cache)
}

/// One of these lists has these addresses.
fn expect_list(rt: &impl Abort, lists: &[Vec<Addr>], bin: usize, addrs: &[Addr]) {
    let list = lists.get(bin).expect(rt, "a list");
    assert_eq!(rt; list.as_slice(), addrs, "list {bin}");
}

#[test]
fn blocks_are_listed_by_size(rt: HostRuntime) -> Result<(), Fail> {
    let cache = with_four_blocks(&rt, rt.alloc())?;
    let lists = cache.lists(rt.alloc())?;
    assert_eq!(rt; lists.len(), 64);
    expect_list(&rt, &lists, 0, &[Addr(0x3000)]);
    expect_list(&rt, &lists, 1, &[Addr(0x4000), Addr(0x2000)]);
    expect_list(&rt, &lists, 2, &[]);
    expect_list(&rt, &lists, 63, &[Addr(0x1040)]);
    let tiles = cache.tiles(rt.alloc())?;
    assert_eq!(rt; tiles.len(), 4);
    assert_eq!(rt; (tiles[3].addr, tiles[3].size), (Addr(0x1040), Size(1040)));
    Ok(())
}

/// What a cache gives as it is drained.
fn drained(alloc: Global, cache: &mut Cache) -> Result<Vec<Addr>, NoMemory>
    ensures { OnOk result (blocks_of cache.new ≡ []) }
{
    let mut addrs = Vec::new(alloc);
    while let Some(block) = cache.drain() {
        addrs.push(block.addr)?;
    }
    Ok(addrs)
}

#[test]
fn a_cache_is_drained_and_closed(rt: HostRuntime) -> Result<(), Fail> {
    let mut cache = with_four_blocks(&rt, rt.alloc())?;
    let addrs = drained(rt.alloc(), &mut cache)?;
    assert_eq!(rt;
        addrs.as_slice(),
        [Addr(0x3000), Addr(0x4000), Addr(0x2000), Addr(0x1040)].as_slice()
    );
    let size = cache.structure().map(|b| b.size);
    let structure = address_of(cache.close());
    assert_eq!(rt;
        (size, structure),
        (Some(Size(656)), Some(Addr(0x5555_5555_9000)))
    );
    assert!(rt; !cache.is_open());
    assert!(rt; cache.close().is_none());
    Ok(())
}
