//! A block is got for a request: from the cache, or from an arena.

ghost use Rattle.std.specs.Prelude.{◌≡◌, ◌^◌, ◌≤◌, true, false, IfSome, IsSome, IfOk, OnErr, option_map, is_ok};
ghost use Rattle.thread_cache.specs.Caches.{structure_of};
ghost use Rattle.chunk_tags.specs.Sizes.{IsRequestSize};
ghost use Rattle.chunk_tags.specs.Tunables.{IsTuned};
ghost use Rattle.consolidate_trim.specs.Outside.{means};
ghost use Rattle.arena_holds.specs.Places.{setting, IsServed, Carries, standing, in_cache};
ghost use Rattle.arena_holds.specs.RunningShort.{RunsShort};
ghost use Rattle.arena_holds.specs.Searching.{IsSearch, IsAligned, size_wanted};
ghost use Rattle.own_blocks.specs.Calls.{from_arena, from_cache, plain_supply, fresh_supply, origin_of, supply_of};
ghost use Rattle.own_blocks.specs.LeftCalls.{IsLeft};
ghost use Rattle.own_blocks.specs.Own.{newest_of_size};
ghost use Rattle.own_blocks.specs.Structure.{StaysOpen};
ghost use Rattle.own_blocks.specs.Supplying.{Supplies};

use crate::opening::open_cache;
use crate::own::take_newest;
use crate::own_cache::OwnCache;
use crate::reply::Origin;
use address_space::{Kernel, Space};
use arena_core::{Act, Who};
use arena_holds::{Places, Search};
use chunk_tags::{Block, NoMemory, Size, Tunables};

/// A block for a request, and where it came from.
#[derive(Debug, Drop)]
pub struct Supply {
    pub block: Block,
    pub from: Origin,
}

/// Where a block of a hold came from.
pub fn origin(hold: u64, block: &Block) -> Origin
    ensures { result ≡ origin_of hold block.now }
{
    match block.arena {
        None => Origin::Mapped,
        Some(a) => Origin::Arena { a, hold },
    }
}

/// The block of a search, and where it came from.
fn found(search: Search) -> Option<Supply>
    ensures { result ≡ option_map (λ b. supply_of b (origin_of search.hold b)) search.block }
{
    let Search { hold, block } = search;
    match block {
        None => None,
        Some(block) => {
            let from = origin(hold, &block);
            Some(Supply { block, from })
        }
    }
}

/// A block from an arena, which is chosen for so many bytes, at a second try for as many as `again`. After `NoMemory` no other
/// block is claimed, and what others have stays given out.
pub fn supply_from_arena<P: Places, K: Kernel>(
    cache: &mut OwnCache,
    p: &mut P,
    who: &Who,
    act: &Act,
    bytes: u64,
    again: u64,
    space: &mut Space<K>,
    t: &Tunables,
) -> Result<Option<Supply>, NoMemory>
    requires writer { P.ways.writes p.old who.now }
    requires act { IsSearch act.now }
    requires bytes { bytes ≤ 2 ^ 63 }
    requires again { again ≤ 2 ^ 63 }
    requires tuned { IsTuned t.now }
    requires served { IsServed P.ways t.now (in_cache cache.old) (standing p.old space.old) }
    ensures supplies { IfOk result (λ got.
        Supplies (setting P.ways (means P.Hold.fast P.Hold.dials K.port) P.Dial.dials) t.now who.now
        (from_arena t.now who.now.thread bytes again act.now cache.old) (size_wanted act.now)
        cache.old (standing p.old space.old) got cache.new (standing p.new space.new)) }
    ensures aligned { IfOk result (λ got. IfSome got (λ g. IsAligned act.now g.block)) }
    ensures short { OnErr result
        (Carries P.ways false (in_cache cache.old) (standing p.old space.old)
        (in_cache cache.new) (standing p.new space.new)) }
    ensures left { OnErr result
        (RunsShort (setting P.ways (means P.Hold.fast P.Hold.dials K.port) P.Dial.dials) t.now
        who.now (from_arena t.now who.now.thread bytes again act.now cache.old)
        (standing p.old space.old) (standing p.new space.new)) }
    ensures structure { structure_of cache.new ≡ structure_of cache.old }
{
    let search = cache.search(p, who, act, bytes, again, space, t)?;
    Ok(found(search))
}

/// The newest chunk of its list in the cache, else a block from an arena. `NoMemory` never comes where the list has one.
fn supply_open<P: Places, K: Kernel>(
    cache: &mut OwnCache,
    p: &mut P,
    who: &Who,
    bytes: u64,
    nb: Size,
    space: &mut Space<K>,
    t: &Tunables,
) -> Result<Option<Supply>, NoMemory>
    requires writer { P.ways.writes p.old who.now }
    requires bytes { bytes ≤ 2 ^ 63 }
    requires size { IsRequestSize nb }
    requires tuned { IsTuned t.now }
    requires served { IsServed P.ways t.now (in_cache cache.old) (standing p.old space.old) }
    ensures supplies { IfOk result (λ got.
        Supplies (setting P.ways (means P.Hold.fast P.Hold.dials K.port) P.Dial.dials) t.now who.now
        (from_cache t.now who.now.thread bytes nb (newest_of_size nb cache.old) cache.old) nb
        cache.old (standing p.old space.old) got cache.new (standing p.new space.new)) }
    ensures short { OnErr result
        (Carries P.ways false (in_cache cache.old) (standing p.old space.old)
        (in_cache cache.new) (standing p.new space.new)) }
    ensures left { OnErr result
        (RunsShort (setting P.ways (means P.Hold.fast P.Hold.dials K.port) P.Dial.dials) t.now
        who.now (from_cache t.now who.now.thread bytes nb (newest_of_size nb cache.old) cache.old)
        (standing p.old space.old) (standing p.new space.new)) }
    ensures structure { structure_of cache.new ≡ structure_of cache.old }
    ensures cached { IsSome (newest_of_size nb cache.old) → is_ok result ≡ true }
{
    match take_newest(cache, nb) {
        None => {
            let act = Act::Take { nb };
            supply_from_arena(cache, p, who, &act, bytes, bytes, space, t)
        }
        Some(block) => Ok(Some(Supply {
            block,
            from: Origin::Cached,
        })),
    }
}

/// A block for a request of so many bytes, whose chunk has `nb`: from the cache, which is opened where it is closed, or from
/// an arena (glibc's `__libc_malloc`). `NoMemory` never comes where the cache has one; after it no other block is claimed, and
/// what others have stays given out.
pub fn plain_supply<P: Places, K: Kernel>(
    cache: &mut OwnCache,
    p: &mut P,
    who: &Who,
    bytes: u64,
    nb: Size,
    space: &mut Space<K>,
    t: &Tunables,
) -> Result<Option<Supply>, NoMemory>
    requires writer { P.ways.writes p.old who.now }
    requires bytes { bytes ≤ 2 ^ 63 }
    requires size { IsRequestSize nb }
    requires tuned { IsTuned t.now }
    requires served { IsServed P.ways t.now (in_cache cache.old) (standing p.old space.old) }
    ensures supplies { IfOk result (λ got.
        Supplies (setting P.ways (means P.Hold.fast P.Hold.dials K.port) P.Dial.dials) t.now who.now
        (plain_supply t.now who.now.thread bytes nb cache.old) nb
        cache.old (standing p.old space.old) got cache.new (standing p.new space.new)) }
    ensures short { OnErr result
        (Carries P.ways false (in_cache cache.old) (standing p.old space.old)
        (in_cache cache.new) (standing p.new space.new)) }
    ensures left { OnErr result
        (IsLeft (setting P.ways (means P.Hold.fast P.Hold.dials K.port) P.Dial.dials) t.now who.now
        (plain_supply t.now who.now.thread bytes nb cache.old)
        (standing p.old space.old) (standing p.new space.new)) }
    ensures kept { StaysOpen cache.old cache.new }
    ensures cached { IsSome (newest_of_size nb cache.old) → is_ok result ≡ true }
{
    open_cache(cache, p, who, space, t)?;
    supply_open(cache, p, who, bytes, nb, space, t)
}

/// A block for a request of so many bytes, whose chunk has `nb`: from an arena, past the cache, which is opened where it is
/// closed (glibc's `__libc_calloc`). After `NoMemory` no other block is claimed, and what others have stays given out.
pub fn fresh_supply<P: Places, K: Kernel>(
    cache: &mut OwnCache,
    p: &mut P,
    who: &Who,
    bytes: u64,
    nb: Size,
    space: &mut Space<K>,
    t: &Tunables,
) -> Result<Option<Supply>, NoMemory>
    requires writer { P.ways.writes p.old who.now }
    requires bytes { bytes ≤ 2 ^ 63 }
    requires size { IsRequestSize nb }
    requires tuned { IsTuned t.now }
    requires served { IsServed P.ways t.now (in_cache cache.old) (standing p.old space.old) }
    ensures supplies { IfOk result (λ got.
        Supplies (setting P.ways (means P.Hold.fast P.Hold.dials K.port) P.Dial.dials) t.now who.now
        (fresh_supply t.now who.now.thread bytes nb cache.old) nb
        cache.old (standing p.old space.old) got cache.new (standing p.new space.new)) }
    ensures short { OnErr result
        (Carries P.ways false (in_cache cache.old) (standing p.old space.old)
        (in_cache cache.new) (standing p.new space.new)) }
    ensures left { OnErr result
        (IsLeft (setting P.ways (means P.Hold.fast P.Hold.dials K.port) P.Dial.dials) t.now who.now
        (fresh_supply t.now who.now.thread bytes nb cache.old)
        (standing p.old space.old) (standing p.new space.new)) }
    ensures kept { StaysOpen cache.old cache.new }
{
    open_cache(cache, p, who, space, t)?;
    let act = Act::Take { nb };
    supply_from_arena(cache, p, who, &act, bytes, bytes, space, t)
}
