//! The scan, and what follows it.

ghost use Rattle.std.specs.Prelude.{◌≡◌, false, IfOk, OnErr};
ghost use Rattle.chunk_tags.specs.Sizes.{IsChunkSize};
ghost use Rattle.arena_rules.specs.PlainArena.{IsSound};
ghost use Rattle.arena_rules.specs.Growth.{has_top_for};
ghost use Rattle.arena_rules.specs.Search.{looked};
ghost use Rattle.consolidate_trim.specs.Lacks.{IsFull};
ghost use Rattle.arena_growth.specs.Ledgers.{shelf, stage};
ghost use Rattle.arena_growth.specs.Steps.{Steps, FitsStep};

use crate::binned::take_binned;
use crate::scan::scan;
use crate::step::Step;
use arena_rules::{Moves, Said};
use chunk_tags::{NoMemory, Size};
use thread_cache::Cache;

/// Scans the unsorted chunks, and then looks into the bins and at top (in glibc's `_int_malloc`).
pub fn look<M: Moves>(
    g: &mut M,
    nb: Size,
    cache: &mut Cache,
    said: &mut Vec<Said>,
) -> Result<Step, NoMemory>
    requires sound { IsSound (M.plain g.old) }
    requires chunk { IsChunkSize nb }
    ensures steps { Steps shelf (looked nb (M.plain g.old))
        (stage (M.plain g.old) cache.old said.old.items)
        result (stage (M.plain g.new) cache.new said.new.items) }
    ensures fits { IfOk result (FitsStep nb) }

    // Where it goes on, top can't give so much.
    ensures top { IfOk result (λ s. s ≡ Step.Onward → has_top_for (M.plain g.new) nb ≡ false) }
    ensures lacks { OnErr result (IsFull said.new) }
{
    match scan(g, nb, cache, said)? {
        Step::Taken(c) => Ok(Step::Taken(c)),
        Step::Onward => Ok(take_binned(g, nb)),
    }
}
