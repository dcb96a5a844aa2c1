//! All arenas are trimmed.

ghost use Rattle.std.specs.Prelude.{◌≡◌, ◌*◌, length, map, IfOk};
ghost use Rattle.page_trim.specs.Trimming.{AreAllListed, AreListed, numbered_trim, plains_of, trims_of};

use crate::trimming::{Trimmed, trim_arena};
use arena_core::Arena;
use arena_ground::Ground;
use arena_rules::Moves;
use chunk_tags::{Addr, NoMemory};
use std::alloc::Global;

/// How many fast bins an arena has.
const FAST_BINS: usize = 10;

/// Trims an arena to this pad; gives its number, and what was given up.
fn trim_one(
    alloc: Global,
    arena: &mut Arena<Ground>,
    fast: &[Vec<Addr>],
    pad: u64,
) -> Result<(u8, Trimmed), NoMemory>
    requires ten { length fast.now ≡ 10 }
    requires listed { AreListed (map (λ l. l.items) fast.now) arena.old.ground.value.arena }
    ensures { IfOk result (λ r. r
        ≡ numbered_trim pad (map (λ l. l.items) fast.now) arena.old.ground.value.arena) }
{
    let number = arena.ground.as_ref().number();
    let trimmed = trim_arena(alloc, arena.ground.as_mut(), fast, pad)?;
    Ok((number, trimmed))
}

/// Trims arenas to this pad, each with its number in front of what it gave up. `fast` has ten lists an arena, one arena after
/// another, each list from its front.
pub fn trim_arenas(
    alloc: Global,
    arenas: &mut [Arena<Ground>],
    fast: &[Vec<Addr>],
    pad: u64,
) -> Result<Vec<(u8, Trimmed)>, NoMemory>
    requires ten { length fast.now ≡ 10 * length arenas.old }
    requires listed { AreAllListed (map (λ l. l.items) fast.now) (plains_of arenas.old) }
    ensures { IfOk result (λ v. v.items
        ≡ trims_of pad (map (λ l. l.items) fast.now) (plains_of arenas.old)) }
{
    let mut all = Vec::new(alloc);
    let mut left = fast;
    for index in 0..arenas.len() {
        let (mine, others) = left.split_at(FAST_BINS);
        left = others;
        let arena = &mut arenas[index];
        all.push(trim_one(alloc, arena, mine, pad)?)?;
    }
    Ok(all)
}
