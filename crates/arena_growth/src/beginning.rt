//! How a search begins.

ghost use Rattle.std.specs.Prelude.{◌≡◌, ◌≤◌, [], ◌∷◌, ◌++◌, IfOk, OnErr};
ghost use Rattle.chunk_tags.specs.Sizes.{IsChunkSize};
ghost use Rattle.fast_bins.specs.FastPorts as fasts;
ghost use Rattle.arena_rules.specs.Search.{consolidated_first, small_or_consolidated, first_steps};
ghost use Rattle.consolidate_trim.specs.Holds.{IsBacked, no_chunk};
ghost use Rattle.consolidate_trim.specs.Lacks.{IsFull};
ghost use Rattle.arena_growth.specs.Ledgers.{near_ledger, near, stage};
ghost use Rattle.arena_growth.specs.Steps.{Steps, Sweeps, FitsStep};

use crate::fast::take_fast;
use crate::small::take_small;
use crate::step::Step;
use arena_rules::{Moves, Said};
use chunk_tags::{NoMemory, Size, Tunables, is_small};
use consolidate_trim::{consolidate, make_room, tell};
use fast_bins::FastPort;
use thread_cache::Cache;

/// Asks whether chunks may be in the fast bins, and keeps the answer. Where there is no memory for it, it isn't asked for.
pub fn ask_flag<P: FastPort>(port: &mut P, said: &mut Vec<Said>) -> Result<bool, NoMemory>
    ensures told { IfOk result (λ b. said.new.items ≡ said.old.items ++ Said.Flag b ∷ []) }
    ensures flag { IfOk result (λ b. fasts.Did P.fast port.old (fasts.Flags b) port.new) }
    ensures port { OnErr result (port.new ≡ port.old) }
    ensures short { OnErr result (said.new.items ≡ said.old.items) }
    ensures lacks { OnErr result (IsFull said.new) }
{
    make_room(said)?;
    let flag = port.flag();
    tell(said, &Said::Flag(flag));
    Ok(flag)
}

/// For a large size the fast bins are consolidated first, where chunks may be in them.
fn consolidate_first<M: Moves, P: FastPort>(
    g: &mut M,
    nb: Size,
    port: &mut P,
    said: &mut Vec<Said>,
) -> Result<(), NoMemory>
    requires { IsBacked P.fast (M.plain g.old) port.old no_chunk }
    ensures sweeps { Sweeps P.fast (consolidated_first nb (M.plain g.old))
        (stage (M.plain g.old) port.old said.old.items)
        result (stage (M.plain g.new) port.new said.new.items) }
    ensures lacks { OnErr result (IsFull said.new) }
{
    if is_small(nb) {
        return Ok(());
    }
    if ask_flag(port, said)? {
        return consolidate(g, port, said);
    }
    Ok(())
}

/// A small size is taken from its bin; for a large one the fast bins are consolidated.
fn begin_small<M: Moves, P: FastPort>(
    g: &mut M,
    nb: Size,
    cache: &mut Cache,
    port: &mut P,
    said: &mut Vec<Said>,
) -> Result<Step, NoMemory>
    requires backed { IsBacked P.fast (M.plain g.old) port.old no_chunk }
    requires chunk { IsChunkSize nb }
    ensures steps { Steps (near_ledger P.fast) (small_or_consolidated nb (M.plain g.old))
        (stage (M.plain g.old) (near port.old cache.old) said.old.items)
        result (stage (M.plain g.new) (near port.new cache.new) said.new.items) }
    ensures fits { IfOk result (FitsStep nb) }
    ensures lacks { OnErr result (IsFull said.new) }
{
    match take_small(g, nb, cache, said)? {
        Step::Taken(c) => Ok(Step::Taken(c)),
        Step::Onward => {
            consolidate_first(g, nb, port, said)?;
            Ok(Step::Onward)
        }
    }
}

/// A fast size is taken from its fast bin, a small one from its bin; for a large one the fast bins are consolidated (the
/// beginning of glibc's `_int_malloc`).
pub fn begin<M: Moves, P: FastPort>(
    g: &mut M,
    nb: Size,
    cache: &mut Cache,
    port: &mut P,
    t: &Tunables,
    said: &mut Vec<Said>,
) -> Result<Step, NoMemory>
    requires backed { IsBacked P.fast (M.plain g.old) port.old no_chunk }
    requires chunk { IsChunkSize nb }
    requires fast { t.now.max_fast ≤ 160 }
    ensures steps { Steps (near_ledger P.fast) (first_steps t.now nb (M.plain g.old))
        (stage (M.plain g.old) (near port.old cache.old) said.old.items)
        result (stage (M.plain g.new) (near port.new cache.new) said.new.items) }
    ensures fits { IfOk result (FitsStep nb) }
    ensures lacks { OnErr result (IsFull said.new) }
{
    match take_fast(g, nb, cache, port, t, said)? {
        Step::Taken(c) => Ok(Step::Taken(c)),
        Step::Onward => begin_small(g, nb, cache, port, said),
    }
}
