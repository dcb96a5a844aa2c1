//! The caller's cache in a hold.

ghost use Rattle.std.specs.Prelude.{◌≡◌, ◌<◌, [], ◌∷◌, ◌++◌, vec_len, vec_capacity, IsTrue, IfOk, OnOk, OnErr, IfSome};
ghost use Rattle.chunk_tags.specs.Sizes.{IsChunkSize};
ghost use Rattle.thread_cache.specs.Caches.{has_room, with_newest};
ghost use Rattle.thread_cache.specs.Held.{IsSoundCache};
ghost use Rattle.arena_rules.specs.PlainArena.{IsSound, times_listed};
ghost use Rattle.arena_rules.specs.Moves.{claimed};
ghost use Rattle.arena_rules.specs.Rules.{block_of};
ghost use Rattle.consolidate_trim.specs.Lacks.{IsFull};

use arena_rules::{Moves, Said};
use chunk_tags::{Chunk, NoMemory, Size};
use consolidate_trim::{make_room, stash, tell};
use thread_cache::Cache;

/// Asks the cache whether it has room for one more chunk of this size, and keeps the answer. Where there is no memory for
/// the answer, it isn't asked for.
pub fn ask_room(cache: &Cache, size: Size, said: &mut Vec<Said>) -> Result<bool, NoMemory>
    ensures told { IfOk result (λ b. said.new.items ≡ said.old.items ++ Said.Room b ∷ []) }
    ensures room { IfOk result (λ b. b ≡ has_room cache.now size) }
    ensures sound { OnOk result (IfSome cache.now IsSoundCache) }
    ensures short { OnErr result (said.new.items ≡ said.old.items) }
    ensures lacks { OnErr result (IsFull said.new) }
{
    make_room(said)?;
    let room = cache.has_room(size);
    tell(said, &Said::Room(room));
    Ok(room)
}

/// Takes a free chunk, which goes to the cache, where that has room for it.
pub fn stash_free<M: Moves>(g: &mut M, c: &Chunk, cache: &mut Cache)
    requires sound { IsSound (M.plain g.old) }
    requires listed { 0 < times_listed c.now (M.plain g.old) }
    requires room { IsTrue (has_room cache.old c.now.size) }
    requires chunk { IsChunkSize c.now.size }
    ensures arena { M.plain g.new ≡ claimed (M.plain g.old) c.now }
    ensures cache { cache.new ≡ with_newest cache.old (block_of (M.plain g.old).number c.now) }
{
    g.claim(*c);
    stash(g.number(), *c, cache);
}
