//! A fast size is taken from its fast bin.

ghost use Rattle.std.specs.Prelude.{◌≡◌, ◌<◌, ◌≤◌, [], ◌∷◌, ◌++◌, IfOk, OnErr};
ghost use Rattle.chunk_tags.specs.Sizes.{IsChunkSize};
ghost use Rattle.fast_bins.specs.FastPorts as fasts;
ghost use Rattle.fast_bins.specs.FastPorts.{fast_bin_count};
ghost use Rattle.arena_rules.specs.Search.{fast_taken};
ghost use Rattle.consolidate_trim.specs.Holds.{IsBacked, no_chunk};
ghost use Rattle.consolidate_trim.specs.Lacks.{IsFull};
ghost use Rattle.arena_growth.specs.Ledgers.{near_ledger, near, stage};
ghost use Rattle.arena_growth.specs.Steps.{Steps, StashesFast, FitsStep};

use crate::room::ask_room;
use crate::step::Step;
use arena_rules::{Moves, Said};
use chunk_tags::{Addr, Chunk, NoMemory, Size, Tunables, fast_index};
use consolidate_trim::{make_room, stash, tell};
use fast_bins::FastPort;
use thread_cache::Cache;

/// Pops the front of a fast bin, and keeps the answer. Where there is no memory for it nothing is popped.
fn pop<P: FastPort>(port: &mut P, bin: u8, said: &mut Vec<Said>) -> Result<Option<Addr>, NoMemory>
    requires { bin < fast_bin_count }
    ensures told { IfOk result (λ o. said.new.items ≡ said.old.items ++ Said.Popped o ∷ []) }
    ensures popped { IfOk result (λ o. fasts.Did P.fast port.old (fasts.Pops bin o) port.new) }
    ensures port { OnErr result (port.new ≡ port.old) }
    ensures short { OnErr result (said.new.items ≡ said.old.items) }
    ensures lacks { OnErr result (IsFull said.new) }
{
    make_room(said)?;
    let popped = &port.pop(bin);
    tell(said, &Said::Popped(*popped));
    Ok(*popped)
}

/// Further chunks of a fast bin go to the cache while that has room and the bin has one.
fn stash_fast<M: Moves, P: FastPort>(
    g: &M,
    nb: Size,
    cache: &mut Cache,
    port: &mut P,
    said: &mut Vec<Said>,
) -> Result<(), NoMemory>
    requires backed { IsBacked P.fast (M.plain g.now) port.old no_chunk }
    requires chunk { IsChunkSize nb }
    requires fast { nb ≤ 160 }
    ensures stashes { StashesFast P.fast nb
        (stage (M.plain g.now) (near port.old cache.old) said.old.items)
        result (stage (M.plain g.now) (near port.new cache.new) said.new.items) }
    ensures lacks { OnErr result (IsFull said.new) }
{
    'stashing: while ask_room(cache, nb, said)? {
        match pop(port, fast_index(nb), said)? {
            Some(at) => stash(g.number(), Chunk { at, size: nb }, cache),
            None => return Ok(()),
        }
    }
    Ok(())
}

/// The front of a fast size's bin; further ones go to the cache (in glibc's `_int_malloc`).
pub fn take_fast<M: Moves, P: FastPort>(
    g: &M,
    nb: Size,
    cache: &mut Cache,
    port: &mut P,
    t: &Tunables,
    said: &mut Vec<Said>,
) -> Result<Step, NoMemory>
    requires backed { IsBacked P.fast (M.plain g.now) port.old no_chunk }
    requires chunk { IsChunkSize nb }
    requires fast { t.now.max_fast ≤ 160 }
    ensures steps { Steps (near_ledger P.fast) (fast_taken t.now nb (M.plain g.now))
        (stage (M.plain g.now) (near port.old cache.old) said.old.items)
        result (stage (M.plain g.now) (near port.new cache.new) said.new.items) }
    ensures fits { IfOk result (FitsStep nb) }
    ensures lacks { OnErr result (IsFull said.new) }
{
    if nb.0 > t.max_fast {
        return Ok(Step::Onward);
    }
    match pop(port, fast_index(nb), said)? {
        Some(at) => {
            stash_fast(g, nb, cache, port, said)?;
            Ok(Step::Taken(Chunk { at, size: nb }))
        }
        None => Ok(Step::Onward),
    }
}
