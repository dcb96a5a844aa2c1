//! The end of a thread.

ghost use Rattle.std.specs.Prelude.{◌≡◌, true, None, Ok, IfOk, OnOk, OnErr, is_ok};
ghost use Rattle.chunk_tags.specs.Tunables.{IsTuned};
ghost use Rattle.consolidate_trim.specs.Outside.{means};
ghost use Rattle.block_names.specs.Blocks.{IsHeld};
ghost use Rattle.arena_holds.specs.Going.{Does};
ghost use Rattle.arena_holds.specs.RunningShort.{RunsShort};
ghost use Rattle.arena_holds.specs.Places.{setting, IsServed, Carries, standing, in_cache};
ghost use Rattle.own_blocks.specs.Exits.{exit_call, released_in_turn, released_past_cache, cache_in_turn};
ghost use Rattle.own_blocks.specs.Own.{in_own};
ghost use Rattle.own_blocks.specs.declared.reply.Reply.TheVariants.{Ended};

use crate::own::Own;
use crate::own_cache::OwnCache;
use crate::releasing::release_past_cache;
use crate::reply::Reply;
use address_space::{Kernel, Space};
use arena_core::Who;
use arena_holds::{Places, free_mapped};
use chunk_tags::{Block, NoMemory, Tunables};

/// Releases a block with the cache closed: a chunk of an arena goes into its fast bin or to its arena, a mapped one is freed
/// with its mapping. After `NoMemory` it is in nobody's hand; no other block is claimed, and what others have stays given out.
fn release_last<P: Places, K: Kernel>(
    p: &mut P,
    who: &Who,
    block: Block,
    space: &mut Space<K>,
    t: &Tunables,
) -> Result<(), NoMemory>
    requires writer { P.ways.writes p.old who.now }
    requires held { IsHeld block }
    requires tuned { IsTuned t.now }
    requires served { IsServed P.ways t.now (λ weigh. weigh block) (standing p.old space.old) }
    ensures does { OnOk result
        (Does (setting P.ways (means P.Hold.fast P.Hold.dials K.port) P.Dial.dials) t.now who.now
        (released_past_cache t.now block block.arena)
        (standing p.old space.old) tt (standing p.new space.new)) }
    ensures left { OnErr result
        (RunsShort (setting P.ways (means P.Hold.fast P.Hold.dials K.port) P.Dial.dials) t.now
        who.now (released_past_cache t.now block block.arena)
        (standing p.old space.old) (standing p.new space.new)) }
    ensures carries { Carries P.ways (is_ok result)
        (λ weigh. weigh block) (standing p.old space.old) (λ _. 0) (standing p.new space.new) }
{
    match block.arena {
        None => {
            free_mapped(p, block, space, t);
            Ok(())
        }
        Some(a) => match release_past_cache(p, who, a, block, space, t) {
            Ok(_to) => Ok(()),
            Err(_short) => Err(NoMemory),
        },
    }
}

/// Closes a cache, and releases what it had: its lists ascending, each newest first, then the chunk of its structure (glibc's
/// `tcache_thread_shutdown`). After `NoMemory` no block is claimed, and what others have stays given out; it never comes where
/// the cache is closed.
fn close_cache<P: Places, K: Kernel>(
    cache: &mut OwnCache,
    p: &mut P,
    who: &Who,
    space: &mut Space<K>,
    t: &Tunables,
) -> Result<(), NoMemory>
    requires writer { P.ways.writes p.old who.now }
    requires tuned { IsTuned t.now }
    requires served { IsServed P.ways t.now (in_cache cache.old) (standing p.old space.old) }
    ensures does { OnOk result
        (Does (setting P.ways (means P.Hold.fast P.Hold.dials K.port) P.Dial.dials) t.now who.now
        (released_in_turn t.now (cache_in_turn cache.old))
        (standing p.old space.old) tt (standing p.new space.new)) }
    ensures left { OnErr result
        (RunsShort (setting P.ways (means P.Hold.fast P.Hold.dials K.port) P.Dial.dials) t.now
        who.now (released_in_turn t.now (cache_in_turn cache.old))
        (standing p.old space.old) (standing p.new space.new)) }
    ensures carries { Carries P.ways (is_ok result) (in_cache cache.old) (standing p.old space.old)
        (in_cache cache.new) (standing p.new space.new) }
    ensures closed { OnOk result (cache.new ≡ None) }
    ensures closed_before { cache.old ≡ None → is_ok result ≡ true }
{
    if !cache.is_open() {
        return Ok(());
    }
    while let Some(block) = cache.drain() {
        release_last(p, who, block, space, t)?;
    }
    match cache.close() {
        None => Ok(()),
        Some(structure) => release_last(p, who, structure, space, t),
    }
}

/// The end of a thread (in glibc's `__malloc_arena_thread_freeres`): what its cache has is released with the cache closed, and
/// the thread leaves its arena. Its named blocks stay. `NoMemory` never comes where the cache is closed.
pub fn exit<P: Places, K: Kernel>(
    own: &mut Own,
    p: &mut P,
    who: &Who,
    space: &mut Space<K>,
    t: &Tunables,
) -> Result<Reply, NoMemory>
    requires writer { P.ways.writes p.old who.now }
    requires tuned { IsTuned t.now }
    requires served { IsServed P.ways t.now (in_own own.old) (standing p.old space.old) }
    ensures does { IfOk result (λ reply.
        Does (setting P.ways (means P.Hold.fast P.Hold.dials K.port) P.Dial.dials) t.now who.now
        (exit_call t.now who.now.thread own.old)
        (standing p.old space.old) (reply, own.new) (standing p.new space.new)) }
    ensures left { OnErr result
        (RunsShort (setting P.ways (means P.Hold.fast P.Hold.dials K.port) P.Dial.dials) t.now
        who.now (exit_call t.now who.now.thread own.old)
        (standing p.old space.old) (standing p.new space.new)) }
    ensures ended { IfOk result (λ reply. reply ≡ Ended) }
    ensures closed { OnOk result (own.new.cache ≡ None) }
    ensures carries { Carries P.ways (is_ok result) (in_own own.old) (standing p.old space.old)
        (in_own own.new) (standing p.new space.new) }
    ensures names { own.new.names ≡ own.old.names }
    ensures closed_before { own.old.cache ≡ None → result ≡ Ok Ended }
{
    close_cache(&mut own.cache, p, who, space, t)?;
    p.leave(who.thread);
    Ok(Reply::Ended)
}
