//! All arenas are trimmed at the end of a run.

ghost use Rattle.std.specs.Prelude.{◌≡◌, ◌*◌, length, map, IfOk};
ghost use Rattle.page_trim.specs.Trimming.{AreAllListed, plains_of};
ghost use Rattle.trace_replay.specs.SerialText.{trim_lines};

use arena_core::Arena;
use arena_ground::Ground;
use chunk_tags::{Addr, NoMemory};
use page_trim::{trim_arenas, trim_text};
use std::alloc::Global;

/// The lines on what was given up of arenas, in the order of their list, where they are trimmed to a pad; none where they
/// aren't. `fast` has ten lists an arena, one arena after another, each from its front.
pub fn trim_lines(
    alloc: Global,
    trim: Option<u64>,
    arenas: &mut [Arena<Ground>],
    fast: &[Vec<Addr>],
    list: &[u8],
) -> Result<Vec<u8>, NoMemory>
    requires ten { length fast.now ≡ 10 * length arenas.old }
    requires listed { AreAllListed (map (λ l. l.items) fast.now) (plains_of arenas.old) }
    ensures { IfOk result (λ text. text.items
        ≡ trim_lines trim list.now (map (λ l. l.items) fast.now) (plains_of arenas.old)) }
{
    let Some(pad) = trim else {
        return Ok(Vec::new(alloc));
    };
    let all = trim_arenas(alloc, arenas, fast, pad)?;
    trim_text(alloc, pad, list, all.as_slice())
}
