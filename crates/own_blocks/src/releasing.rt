//! A block of an arena is released, outside the arena's lock as far as the cache and the fast bins take it.

ghost use Rattle.std.specs.Prelude.{◌≡◌, ◌≤◌, true, false, nat_le, Some, Ok, IsTrue, IfOk, IfErr, OnOk, OnErr, is_ok};
ghost use Rattle.chunk_tags.specs.Tunables.{IsTuned};
ghost use Rattle.consolidate_trim.specs.Outside.{means};
ghost use Rattle.thread_cache.specs.Caches.{CacheValue, takes, structure_of};
ghost use Rattle.own_blocks.specs.Calls.{past_cache, releasing};
ghost use Rattle.arena_holds.specs.Holding.{PushesWithRoom};
ghost use Rattle.block_names.specs.Blocks.{IsHeld};
ghost use Rattle.arena_holds.specs.Places.{setting, IsServed, standing, both_of, in_cache};
ghost use Rattle.arena_holds.specs.Returning.{IsUnseen};
ghost use Rattle.arena_holds.specs.RunningShort.{RunsShort};
ghost use Rattle.own_blocks.specs.Supplying.{Releases, ReleasesShort};
ghost use Rattle.own_blocks.specs.declared.reply.To.TheVariants.{Cached};

use crate::own_cache::OwnCache;
use crate::reply::To;
use address_space::{Kernel, Space};
use arena_core::{GiveShort, Who};
use arena_holds::{Places, give_held};
use chunk_tags::{Block, NoMemory, Size, Tunables, fast_index};

/// Whether chunks of a size go into fast bins.
fn is_fast(size: Size, t: &Tunables) -> bool
    ensures { result ≡ nat_le size t.now.max_fast }
{
    size.0 <= t.max_fast
}

/// Makes room for a push and pushes a block into the fast bin of its size. Where there is no room it comes back.
fn push_fast<P: Places>(p: &mut P, a: u8, block: Block) -> Result<(), Block>
    requires held { IsHeld block }
    requires fast { block.size ≤ 160 }
    requires arena { block.arena ≡ Some a }
    requires there { IsTrue (P.ways.there p.old a) }
    requires served { P.ways.serves false p.old (λ weigh. weigh block) }
    ensures pushes { OnOk result (PushesWithRoom P.ways p.old block p.new) }
    ensures gone { OnOk result (IsUnseen P.ways p.old (λ weigh. weigh block) (λ _. 0) p.new) }
    ensures back { IfErr result (λ b. b ≡ block) }
    ensures kept { OnErr result (IsUnseen P.ways p.old (λ _. 0) (λ _. 0) p.new) }
    ensures full { OnErr result (P.ways.room p.old a → ⊥) }
    ensures idle { OnErr result (P.ways.idle p.old p.new) }
{
    match p.make_room(a) {
        Ok(()) => {
            p.push(block);
            Ok(())
        }
        Err(NoMemory) => Err(block),
    }
}

/// A chunk that the cache doesn't take goes into its fast bin where it is fast, else to its arena. Where there is no room for
/// a push, or for the hold's entry, it comes back; where memory is short behind the entry the arena has it.
pub fn release_past_cache<P: Places, K: Kernel>(
    p: &mut P,
    who: &Who,
    a: u8,
    block: Block,
    space: &mut Space<K>,
    t: &Tunables,
) -> Result<To, GiveShort>
    requires writer { P.ways.writes p.old who.now }
    requires held { IsHeld block }
    requires arena { block.arena ≡ Some a }
    requires tuned { IsTuned t.now }
    requires served { IsServed P.ways t.now (λ weigh. weigh block) (standing p.old space.old) }
    ensures releases { (cache : CacheValue) → IfOk result (λ to.
        Releases (setting P.ways (means P.Hold.fast P.Hold.dials K.port) P.Dial.dials) t.now who.now
        (past_cache t.now a block cache) block cache (standing p.old space.old) to cache
        (standing p.new space.new)) }
    ensures short { (cache : CacheValue) → IfErr result (λ e.
        ReleasesShort (setting P.ways (means P.Hold.fast P.Hold.dials K.port) P.Dial.dials) t.now
        who.now a block cache (standing p.old space.old) e.back cache (standing p.new space.new)) }
    ensures left { (cache : CacheValue) → OnErr result
        (RunsShort (setting P.ways (means P.Hold.fast P.Hold.dials K.port) P.Dial.dials) t.now
        who.now (past_cache t.now a block cache)
        (standing p.old space.old) (standing p.new space.new)) }
    ensures fast { nat_le block.size t.now.max_fast ≡ true → P.ways.room p.old a
        → is_ok result ≡ true }
{
    if is_fast(block.size, t) {
        let bin = fast_index(block.size);
        match push_fast(p, a, block) {
            Ok(()) => Ok(To::Fast { a, bin }),
            Err(back) => Err(GiveShort { back: Some(back) }),
        }
    } else {
        match give_held(p, a, who, block, space, t) {
            Ok(hold) => Ok(To::Binned { a, hold }),
            Err(short) => Err(short),
        }
    }
}

/// Releases a chunk of an arena: into the cache where that takes it, else past it (glibc's `_int_free`). Where memory is short
/// it comes back, or its arena has it, and the cache is as it was.
#[inline(always)]
pub fn release<P: Places, K: Kernel>(
    cache: &mut OwnCache,
    p: &mut P,
    who: &Who,
    a: u8,
    block: Block,
    space: &mut Space<K>,
    t: &Tunables,
) -> Result<To, GiveShort>
    requires writer { P.ways.writes p.old who.now }
    requires held { IsHeld block }
    requires arena { block.arena ≡ Some a }
    requires tuned { IsTuned t.now }
    requires served { IsServed P.ways t.now (both_of (λ weigh. weigh block) (in_cache cache.old))
        (standing p.old space.old) }
    ensures releases { IfOk result (λ to.
        Releases (setting P.ways (means P.Hold.fast P.Hold.dials K.port) P.Dial.dials) t.now who.now
        (releasing t.now a block cache.old) block cache.old (standing p.old space.old) to cache.new
        (standing p.new space.new)) }
    ensures short { IfErr result (λ e.
        ReleasesShort (setting P.ways (means P.Hold.fast P.Hold.dials K.port) P.Dial.dials) t.now
        who.now a block cache.old (standing p.old space.old) e.back
        cache.new (standing p.new space.new)) }
    ensures left { OnErr result
        (RunsShort (setting P.ways (means P.Hold.fast P.Hold.dials K.port) P.Dial.dials) t.now
        who.now (releasing t.now a block cache.old)
        (standing p.old space.old) (standing p.new space.new)) }
    ensures structure { structure_of cache.new ≡ structure_of cache.old }
    ensures unchanged { OnErr result (cache.new ≡ cache.old) }
    ensures cached { takes cache.old block ≡ true → result ≡ Ok Cached }
    ensures fast { nat_le block.size t.now.max_fast ≡ true → P.ways.room p.old a
        → is_ok result ≡ true }
{
    match cache.put(block) {
        Ok(()) => Ok(To::Cached),
        Err(back) => release_past_cache(p, who, a, back, space, t),
    }
}
