//! realloc of a mapped block.

ghost use Rattle.std.specs.Prelude.{◌≡◌, ◌^◌, ◌≤◌, ◌-◌, true, nat_le, None, IfOk, IfErr, OnErr, is_ok};
ghost use Rattle.chunk_tags.specs.Sizes.{IsRequestSize};
ghost use Rattle.chunk_tags.specs.Tunables.{IsTuned};
ghost use Rattle.chunk_tags.specs.declared.block.Block.{Block as Piece};
ghost use Rattle.consolidate_trim.specs.Outside.{means};
ghost use Rattle.block_names.specs.Blocks.{IsHeld};
ghost use Rattle.arena_holds.specs.Calls.{then_call};
ghost use Rattle.own_blocks.specs.Calls.{plain_supply};
ghost use Rattle.own_blocks.specs.LeftCalls.{IsLeft};
ghost use Rattle.malloc_calls.specs.Reallocs.{realloc_in_mapping, moved_from_mapping, not_remapped, remapped, has_what_it_needs};
ghost use Rattle.malloc_calls.specs.Resettling.{Resettles};
ghost use Rattle.arena_holds.specs.Holding.{ResizesShort};
ghost use Rattle.arena_holds.specs.Places.{setting, IsServed, standing, both_of, in_cache};
ghost use Rattle.own_blocks.specs.Structure.{StaysOpen};

use crate::reallocated::{Reallocated, got_block, kept_block, refused_block};
use address_space::{Kernel, Space};
use arena_core::Who;
use arena_holds::{Places, has_length, has_room, remap_mapped, unmap_mapped};
use chunk_tags::{Addr, Block, NoMemory, Size, Tunables};
use own_blocks::{Origin, OwnCache, plain_supply};

/// malloc in the place of another length that was refused: the block's mapping goes back for the one that is got.
fn move_from_mapping<P: Places, K: Kernel>(
    cache: &mut OwnCache,
    p: &mut P,
    who: &Who,
    block: Block,
    size: u64,
    nb: Size,
    space: &mut Space<K>,
    t: &Tunables,
) -> Result<Reallocated, Block>
    requires writer { P.ways.writes p.old who.now }
    requires bytes { size ≤ 2 ^ 63 }
    requires size { IsRequestSize nb }
    requires held { IsHeld block }
    requires arena { block.arena ≡ None }
    requires tuned { IsTuned t.now }
    requires served { IsServed P.ways t.now (both_of (λ weigh. weigh block) (in_cache cache.old))
        (standing p.old space.old) }
    ensures resettles { IfOk result (λ done.
        Resettles (setting P.ways (means P.Hold.fast P.Hold.dials K.port) P.Dial.dials)
        t.now who.now
        (then_call (plain_supply t.now who.now.thread size nb cache.old)
        (moved_from_mapping block)) nb block
        cache.old (standing p.old space.old) done cache.new (standing p.new space.new)) }
    ensures short { IfErr result (λ back.
        ResizesShort (setting P.ways (means P.Hold.fast P.Hold.dials K.port) P.Dial.dials) block
        nb cache.old (standing p.old space.old) back cache.new (standing p.new space.new)) }
    ensures left { OnErr result
        (IsLeft (setting P.ways (means P.Hold.fast P.Hold.dials K.port) P.Dial.dials) t.now who.now
        (then_call (plain_supply t.now who.now.thread size nb cache.old)
        (moved_from_mapping block))
        (standing p.old space.old) (standing p.new space.new)) }
    ensures kept { StaysOpen cache.old cache.new }
{
    let found = match plain_supply(cache, p, who, size, nb, space, t) {
        Ok(found) => found,
        Err(NoMemory) => return Err(block),
    };
    match found {
        None => Ok(refused_block(block)),
        Some(got) => {
            unmap_mapped(p, block, space);
            Ok(got_block(got.from, got.block))
        }
    }
}

/// A block whose mapping has another length, where it was at this address.
fn remapped(before: Addr, block: Block) -> Reallocated
    ensures { (b : Piece) → b.addr ≡ before → result ≡ remapped b block }
{
    if block.addr == before {
        kept_block(Origin::Mapped, block)
    } else {
        got_block(Origin::Mapped, block)
    }
}

/// A mapped block gets `nb` bytes: its mapping has the length already, or is asked for another, or malloc's block is got in
/// its place. Where memory is short the block comes back.
pub(crate) fn realloc_in_mapping<P: Places, K: Kernel>(
    cache: &mut OwnCache,
    p: &mut P,
    who: &Who,
    block: Block,
    size: u64,
    nb: Size,
    space: &mut Space<K>,
    t: &Tunables,
) -> Result<Reallocated, Block>
    requires writer { P.ways.writes p.old who.now }
    requires bytes { size ≤ 2 ^ 63 }
    requires size { IsRequestSize nb }
    requires held { IsHeld block }
    requires arena { block.arena ≡ None }
    requires tuned { IsTuned t.now }
    requires served { IsServed P.ways t.now (both_of (λ weigh. weigh block) (in_cache cache.old))
        (standing p.old space.old) }
    ensures resettles { IfOk result (λ done.
        Resettles (setting P.ways (means P.Hold.fast P.Hold.dials K.port) P.Dial.dials)
        t.now who.now
        (realloc_in_mapping t.now who.now.thread size nb block cache.old) nb block
        cache.old (standing p.old space.old) done cache.new (standing p.new space.new)) }
    ensures short { IfErr result (λ back.
        ResizesShort (setting P.ways (means P.Hold.fast P.Hold.dials K.port) P.Dial.dials) block
        nb cache.old (standing p.old space.old) back cache.new (standing p.new space.new)) }
    ensures left { OnErr result
        (IsLeft (setting P.ways (means P.Hold.fast P.Hold.dials K.port) P.Dial.dials) t.now who.now
        (realloc_in_mapping t.now who.now.thread size nb block cache.old)
        (standing p.old space.old) (standing p.new space.new)) }
    ensures kept { StaysOpen cache.old cache.new }
    ensures mapped { has_what_it_needs nb block ≡ true → is_ok result ≡ true }
{
    if has_length(&block, nb) {
        return Ok(kept_block(Origin::Mapped, block));
    }
    let addr = block.addr;
    match remap_mapped(p, block, nb, space) {
        Ok(changed) => Ok(remapped(addr, changed)),
        Err(block) => keep_or_move(cache, p, who, block, size, nb, space, t),
    }
}

/// A mapped block whose other length was refused: it is kept where it has 8 bytes more than `nb`, else malloc's block is got
/// in its place.
fn keep_or_move<P: Places, K: Kernel>(
    cache: &mut OwnCache,
    p: &mut P,
    who: &Who,
    block: Block,
    size: u64,
    nb: Size,
    space: &mut Space<K>,
    t: &Tunables,
) -> Result<Reallocated, Block>
    requires writer { P.ways.writes p.old who.now }
    requires bytes { size ≤ 2 ^ 63 }
    requires size { IsRequestSize nb }
    requires held { IsHeld block }
    requires arena { block.arena ≡ None }
    requires tuned { IsTuned t.now }
    requires served { IsServed P.ways t.now (both_of (λ weigh. weigh block) (in_cache cache.old))
        (standing p.old space.old) }
    ensures resettles { IfOk result (λ done.
        Resettles (setting P.ways (means P.Hold.fast P.Hold.dials K.port) P.Dial.dials)
        t.now who.now
        (not_remapped t.now who.now.thread size nb block cache.old) nb block
        cache.old (standing p.old space.old) done cache.new (standing p.new space.new)) }
    ensures short { IfErr result (λ back.
        ResizesShort (setting P.ways (means P.Hold.fast P.Hold.dials K.port) P.Dial.dials) block
        nb cache.old (standing p.old space.old) back cache.new (standing p.new space.new)) }
    ensures left { OnErr result
        (IsLeft (setting P.ways (means P.Hold.fast P.Hold.dials K.port) P.Dial.dials) t.now who.now
        (not_remapped t.now who.now.thread size nb block cache.old)
        (standing p.old space.old) (standing p.new space.new)) }
    ensures kept { StaysOpen cache.old cache.new }
    ensures room { nat_le nb (block.size - 8) ≡ true → is_ok result ≡ true }
{
    if has_room(&block, nb) {
        Ok(kept_block(Origin::Mapped, block))
    } else {
        move_from_mapping(cache, p, who, block, size, nb, space, t)
    }
}
