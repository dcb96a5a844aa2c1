//! realloc of a block of an arena.

ghost use Rattle.std.specs.Prelude.{◌≡◌, ◌^◌, ◌≤◌, Some, IfOk, IfErr, OnErr};
ghost use Rattle.chunk_tags.specs.Sizes.{IsRequestSize};
ghost use Rattle.chunk_tags.specs.Tunables.{IsTuned};
ghost use Rattle.consolidate_trim.specs.Outside.{means};
ghost use Rattle.block_names.specs.Blocks.{IsHeld};
ghost use Rattle.arena_holds.specs.Calls.{then_call};
ghost use Rattle.own_blocks.specs.Calls.{plain_supply};
ghost use Rattle.own_blocks.specs.LeftCalls.{IsLeft};
ghost use Rattle.malloc_calls.specs.Reallocs.{resize_in_arena, realloc_in_arena, moved_from_arena};
ghost use Rattle.malloc_calls.specs.Resettling.{Resettles};
ghost use Rattle.arena_holds.specs.Holding.{ResizesShort};
ghost use Rattle.arena_holds.specs.Places.{setting, IsServed, standing, both_of, in_cache};
ghost use Rattle.own_blocks.specs.Structure.{StaysOpen};

use crate::reallocated::{Reallocated, got_block, kept_block, refused_block};
use address_space::{Kernel, Space};
use arena_core::Who;
use arena_holds::{HeldResize, Places};
use chunk_tags::{Block, NoMemory, Size, Tunables};
use own_blocks::{OwnCache, open_cache, origin, plain_supply, release};
use realloc_align::Resized;

/// malloc in the place of a resize that was refused: the block of an arena is released for the one that is got.
fn move_from_arena<P: Places, K: Kernel>(
    cache: &mut OwnCache,
    p: &mut P,
    who: &Who,
    a: u8,
    block: Block,
    size: u64,
    nb: Size,
    space: &mut Space<K>,
    t: &Tunables,
) -> Result<Reallocated, Block>
    requires writer { P.ways.writes p.old who.now }
    requires bytes { size ≤ 2 ^ 63 }
    requires size { IsRequestSize nb }
    requires held { IsHeld block }
    requires arena { block.arena ≡ Some a }
    requires tuned { IsTuned t.now }
    requires served { IsServed P.ways t.now (both_of (λ weigh. weigh block) (in_cache cache.old))
        (standing p.old space.old) }
    ensures resettles { IfOk result (λ done.
        Resettles (setting P.ways (means P.Hold.fast P.Hold.dials K.port) P.Dial.dials)
        t.now who.now
        (then_call (plain_supply t.now who.now.thread size nb cache.old)
        (moved_from_arena t.now a block)) nb block
        cache.old (standing p.old space.old) done cache.new (standing p.new space.new)) }
    ensures short { IfErr result (λ back.
        ResizesShort (setting P.ways (means P.Hold.fast P.Hold.dials K.port) P.Dial.dials) block
        nb cache.old (standing p.old space.old) back cache.new (standing p.new space.new)) }
    ensures left { OnErr result
        (IsLeft (setting P.ways (means P.Hold.fast P.Hold.dials K.port) P.Dial.dials) t.now who.now
        (then_call (plain_supply t.now who.now.thread size nb cache.old)
        (moved_from_arena t.now a block))
        (standing p.old space.old) (standing p.new space.new)) }
    ensures kept { StaysOpen cache.old cache.new }
{
    let found = match plain_supply(cache, p, who, size, nb, space, t) {
        Ok(found) => found,
        Err(NoMemory) => return Err(block),
    };
    match found {
        None => Ok(refused_block(block)),
        Some(got) => match release(cache, p, who, a, block, space, t) {
            Ok(_to) => Ok(got_block(got.from, got.block)),
            Err(_lost) => Err(got.block),
        },
    }
}

/// A block of an arena gets `nb` bytes under the lock of its arena, or malloc's block in its place. Where memory is short the
/// block comes back where it is then, or the one that was got for it: as it was, or large enough.
fn resize_in_arena<P: Places, K: Kernel>(
    cache: &mut OwnCache,
    p: &mut P,
    who: &Who,
    a: u8,
    block: Block,
    size: u64,
    nb: Size,
    space: &mut Space<K>,
    t: &Tunables,
) -> Result<Reallocated, Block>
    requires writer { P.ways.writes p.old who.now }
    requires bytes { size ≤ 2 ^ 63 }
    requires size { IsRequestSize nb }
    requires held { IsHeld block }
    requires arena { block.arena ≡ Some a }
    requires tuned { IsTuned t.now }
    requires served { IsServed P.ways t.now (both_of (λ weigh. weigh block) (in_cache cache.old))
        (standing p.old space.old) }
    ensures resettles { IfOk result (λ done.
        Resettles (setting P.ways (means P.Hold.fast P.Hold.dials K.port) P.Dial.dials)
        t.now who.now
        (resize_in_arena t.now who.now.thread size nb a block cache.old) nb block
        cache.old (standing p.old space.old) done cache.new (standing p.new space.new)) }
    ensures short { IfErr result (λ back.
        ResizesShort (setting P.ways (means P.Hold.fast P.Hold.dials K.port) P.Dial.dials) block
        nb cache.old (standing p.old space.old) back cache.new (standing p.new space.new)) }
    ensures left { OnErr result
        (IsLeft (setting P.ways (means P.Hold.fast P.Hold.dials K.port) P.Dial.dials) t.now who.now
        (resize_in_arena t.now who.now.thread size nb a block cache.old)
        (standing p.old space.old) (standing p.new space.new)) }
    ensures kept { StaysOpen cache.old cache.new }
{
    let HeldResize { hold, resized } = cache.resize(p, a, who, block, nb, space, t)?;
    match resized {
        Resized::Kept(block) => Ok(kept_block(origin(hold, &block), block)),
        Resized::Moved(block) => Ok(got_block(origin(hold, &block), block)),
        Resized::Refused(block) => { move_from_arena(cache, p, who, a, block, size, nb, space, t) }
    }
}

/// A block of an arena gets `nb` bytes, and the cache is opened first where it is closed.
pub(crate) fn realloc_in_arena<P: Places, K: Kernel>(
    cache: &mut OwnCache,
    p: &mut P,
    who: &Who,
    a: u8,
    block: Block,
    size: u64,
    nb: Size,
    space: &mut Space<K>,
    t: &Tunables,
) -> Result<Reallocated, Block>
    requires writer { P.ways.writes p.old who.now }
    requires bytes { size ≤ 2 ^ 63 }
    requires size { IsRequestSize nb }
    requires held { IsHeld block }
    requires arena { block.arena ≡ Some a }
    requires tuned { IsTuned t.now }
    requires served { IsServed P.ways t.now (both_of (λ weigh. weigh block) (in_cache cache.old))
        (standing p.old space.old) }
    ensures resettles { IfOk result (λ done.
        Resettles (setting P.ways (means P.Hold.fast P.Hold.dials K.port) P.Dial.dials)
        t.now who.now
        (realloc_in_arena t.now who.now.thread size nb a block cache.old) nb block
        cache.old (standing p.old space.old) done cache.new (standing p.new space.new)) }
    ensures short { IfErr result (λ back.
        ResizesShort (setting P.ways (means P.Hold.fast P.Hold.dials K.port) P.Dial.dials) block
        nb cache.old (standing p.old space.old) back cache.new (standing p.new space.new)) }
    ensures left { OnErr result
        (IsLeft (setting P.ways (means P.Hold.fast P.Hold.dials K.port) P.Dial.dials) t.now who.now
        (realloc_in_arena t.now who.now.thread size nb a block cache.old)
        (standing p.old space.old) (standing p.new space.new)) }
    ensures kept { StaysOpen cache.old cache.new }
{
    match open_cache(cache, p, who, space, t) {
        Ok(()) => resize_in_arena(cache, p, who, a, block, size, nb, space, t),
        Err(NoMemory) => Err(block),
    }
}
