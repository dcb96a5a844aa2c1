//! Holds of arenas within a call, each from its lock to its unlock.

ghost use Rattle.std.specs.Prelude.{◌≡◌, ℕ, ◌≤◌, [], false, Some, IfOk, IfErr, OnErr, length};
ghost use Rattle.chunk_tags.specs.Sizes.{IsRequestSize, IsChunkSize};
ghost use Rattle.chunk_tags.specs.Tunables.{IsTuned};
ghost use Rattle.thread_cache.specs.Caches.{CacheValue, structure_of};
ghost use Rattle.arena_rules.specs.PlainArena.{Plain};
ghost use Rattle.consolidate_trim.specs.Holds.{no_chunk};
ghost use Rattle.consolidate_trim.specs.Outside.{AreApart, means};
ghost use Rattle.arena_growth.specs.Ledgers.{stage};
ghost use Rattle.arena_growth.specs.Asking.{IsSearchable, IsReady, AllowsMaps, beside_arena};
ghost use Rattle.arena_core.specs.Arenas.{FailsShort, held};
ghost use Rattle.arena_core.specs.Replay.{IsReplay};
ghost use Rattle.arena_holds.specs.Places.{setting, IsServed, Carries, standing, both_of, in_cache, kept_of};
ghost use Rattle.block_names.specs.Blocks.{IsHeld};
ghost use Rattle.arena_holds.specs.Calls.{hold_of};
ghost use Rattle.arena_holds.specs.RunningShort.{RunsShort};
ghost use Rattle.arena_holds.specs.Searching.{IsSearch};
ghost use Rattle.arena_holds.specs.Holding.{SearchesArena, SearchesHeld, SearchesShort, IsLentTo, Gives, GivesShort, Resizes, ResizesShort, block_in};

use crate::places::Places;
use address_space::{Kernel, Space};
use arena_core::{Act, Arena, GiveShort, Take, Who};
use arena_rules::Moves;
use chunk_tags::{Block, NoMemory, Size, Tunables};
use fast_bins::FastPort;
use mapped_chunks::Dials;
use realloc_align::{Resized, aligned, resize};
use thread_cache::Cache;

/// What a search came to: the place of its hold's entry in the journal of the arena, 0 where a mapping stands in for an arena,
/// and the block that was found.
#[derive(Debug, Drop)]
pub struct Search {
    pub hold: u64,
    pub block: Option<Block>,
}

/// The block of a search.
fn block_in(take: Take) -> Option<Block>
    ensures { result ≡ block_in take }
{
    match take {
        Take::Got(block) => Some(block),
        Take::Refused => None,
    }
}

/// Searches an arena for an act, and records the hold.
fn search_arena<M: Moves, K: Kernel, P: FastPort + Dials>(
    a: &mut Arena<M>,
    who: Who,
    act: &Act,
    cache: &mut Cache,
    port: &mut P,
    space: &mut Space<K>,
    t: &Tunables,
) -> Result<Option<Block>, NoMemory>
    requires ready { IsReady (means P.fast P.dials K.port) t.now
        (stage (M.plain a.old.ground.value) (beside_arena port.old cache.old space.old) []) }
    requires allows { AllowsMaps P.dials port.old space.old }
    requires apart { AreApart P.fast P.dials }
    requires tuned { IsSearchable t.now }
    requires act { IsSearch act.now }
    ensures searches { IfOk result (λ block.
        SearchesArena (means P.fast P.dials K.port) t.now who act.now
        (held (M.plain a.old.ground.value) port.old cache.old space.old a.old.journal.items)
        block (held (M.plain a.new.ground.value) port.new cache.new space.new a.new.journal.items)) }
    ensures short { OnErr result (FailsShort (means P.fast P.dials K.port) t.now who act.now
        (held (M.plain a.old.ground.value) port.old cache.old space.old a.old.journal.items)
        no_chunk (held (M.plain a.new.ground.value) port.new cache.new space.new a.new.journal.items)) }
    ensures full { OnErr result (a.new.journal.items ≡ a.old.journal.items
        → a.old.journal.capacity ≤ length a.old.journal.items) }
    ensures replay { (start : Plain)
        → IsReplay t.now start a.old.journal.items (M.plain a.old.ground.value)
        → IsReplay t.now start a.new.journal.items (M.plain a.new.ground.value) }
{
    match act {
        Act::Take { nb } => Ok(block_in(a.take(who, *nb, cache, port, space, t)?)),
        Act::Align { align, nb } => {
            match aligned(a, who, *align, *nb, cache, port, space, t) {
                Ok(take) => Ok(block_in(take)),
                Err(_short) => Err(NoMemory),
            }
        }
        _ => unreachable!(),
    }
}

/// Searches an arena that was lent, and gives it back. After `NoMemory` no other block is claimed, and what others have stays
/// given out; where the journal has room for it, an entry says that memory was short, else the arena is as it was.
pub fn search_lent<P: Places, K: Kernel>(
    p: &mut P,
    mut hold: P::Hold,
    mut arena: Arena<P::Ground>,
    who: &Who,
    act: &Act,
    cache: &mut Cache,
    space: &mut Space<K>,
    t: &Tunables,
) -> Result<Search, NoMemory>
    requires act { IsSearch act.now }
    requires tuned { IsTuned t.now }
    requires lent { (places : P) × (a : ℕ) × IsLentTo P.ways t.now who.now (in_cache cache.old)
        (standing places space.old) a hold (kept_of P.Ground.plain arena) p.old }
    ensures searches { (places : P) → (a : ℕ) → IsLentTo P.ways t.now who.now (in_cache cache.old)
        (standing places space.old) a hold (kept_of P.Ground.plain arena) p.old → IfOk result
        (λ found. SearchesHeld (setting P.ways (means P.Hold.fast P.Hold.dials K.port) P.Dial.dials)
        t.now who.now a act.now cache.old (standing places space.old) found.hold found.block
        cache.new (standing p.new space.new)) }
    ensures short { (places : P) → (a : ℕ) → IsLentTo P.ways t.now who.now (in_cache cache.old)
        (standing places space.old) a hold (kept_of P.Ground.plain arena) p.old → OnErr result
        (Carries P.ways false (in_cache cache.old) (standing places space.old)
        (in_cache cache.new) (standing p.new space.new)) }
    ensures left { (places : P) → (a : ℕ) → IsLentTo P.ways t.now who.now (in_cache cache.old)
        (standing places space.old) a hold (kept_of P.Ground.plain arena) p.old → OnErr result
        (SearchesShort (setting P.ways (means P.Hold.fast P.Hold.dials K.port) P.Dial.dials) t.now
        who.now a act.now cache.old (standing places space.old) (length arena.journal.items)
        arena.journal.capacity (standing p.new space.new)) }
    ensures structure { structure_of cache.new ≡ structure_of cache.old }
{
    cache.laws();
    let place = arena.journal.len() as u64;
    let searched = search_arena(&mut arena, *who, act, cache, &mut hold, space, t);
    cache.laws();
    p.unlock(hold, arena);
    match searched {
        Ok(block) => Ok(Search { hold: place, block }),
        Err(NoMemory) => Err(NoMemory),
    }
}

/// Gives a block to its arena, in one hold, and gives the place of the hold's entry in the journal. Where memory is short the
/// block comes back, or the arena has it; what others have stays given out.
pub fn give_held<P: Places, K: Kernel>(
    p: &mut P,
    a: u8,
    who: &Who,
    b: Block,
    space: &mut Space<K>,
    t: &Tunables,
) -> Result<u64, GiveShort>
    requires writer { P.ways.writes p.old who.now }
    requires chunk { IsChunkSize b.size }
    requires arena { b.arena ≡ Some a }
    requires served { IsServed P.ways t.now (λ weigh. weigh b) (standing p.old space.old) }
    ensures gives { (cache : CacheValue) → IfOk result (λ hold.
        Gives (setting P.ways (means P.Hold.fast P.Hold.dials K.port) P.Dial.dials) t.now who.now a
        b cache (standing p.old space.old) hold (standing p.new space.new)) }
    ensures short { IfErr result (λ e.
        GivesShort (setting P.ways (means P.Hold.fast P.Hold.dials K.port) P.Dial.dials) t.now
        who.now a b (standing p.old space.old) e.back (standing p.new space.new)) }
{
    let (mut hold, lent) = p.lock(a);
    let mut arena = lent.unwrap();
    let place = arena.journal.len() as u64;
    let gave = arena.give(*who, b, &mut hold, space, t);
    p.unlock(hold, arena);
    match gave {
        Ok(()) => Ok(place),
        Err(short) => Err(short),
    }
}

/// What a resize in a hold came to: the place of the hold's entry in the journal of the arena, and what became of the block.
#[derive(Debug, Drop)]
pub struct HeldResize {
    pub hold: u64,
    pub resized: Resized,
}

/// Gives a block of an arena `nb` bytes, in one hold. Where memory is short it comes back where it is then, as it was or large
/// enough; no other block is claimed, and what others have stays given out.
pub fn resize_held<P: Places, K: Kernel>(
    p: &mut P,
    a: u8,
    who: &Who,
    b: Block,
    nb: Size,
    cache: &mut Cache,
    space: &mut Space<K>,
    t: &Tunables,
) -> Result<HeldResize, Block>
    requires writer { P.ways.writes p.old who.now }
    requires size { IsRequestSize nb }
    requires held { IsHeld b }
    requires arena { b.arena ≡ Some a }
    requires tuned { IsTuned t.now }
    requires served { IsServed P.ways t.now (both_of (λ weigh. weigh b) (in_cache cache.old))
        (standing p.old space.old) }
    ensures resizes { IfOk result (λ r.
        Resizes (setting P.ways (means P.Hold.fast P.Hold.dials K.port) P.Dial.dials) t.now who.now
        a b nb cache.old (standing p.old space.old) r.hold r.resized
        cache.new (standing p.new space.new)) }
    ensures short { IfErr result (λ back.
        ResizesShort (setting P.ways (means P.Hold.fast P.Hold.dials K.port) P.Dial.dials) b nb
        cache.old (standing p.old space.old) back cache.new (standing p.new space.new)) }
    ensures left { OnErr result
        (RunsShort (setting P.ways (means P.Hold.fast P.Hold.dials K.port) P.Dial.dials) t.now
        who.now (hold_of a (Act.Resize b.addr b.size nb) cache.old)
        (standing p.old space.old) (standing p.new space.new)) }
    ensures structure { structure_of cache.new ≡ structure_of cache.old }
{
    cache.laws();
    let (mut hold, lent) = p.lock(a);
    let mut arena = lent.unwrap();
    let place = arena.journal.len() as u64;
    let done = resize(&mut arena, *who, b, nb, cache, &mut hold, space, t);
    cache.laws();
    p.unlock(hold, arena);
    match done {
        Ok(resized) => Ok(HeldResize {
            hold: place,
            resized,
        }),
        Err(short) => Err(short.back.unwrap()),
    }
}
