//! An arena is trimmed.

ghost use Rattle.std.specs.Prelude.{◌≡◌, ◌^◌, ◌<◌, map, length, IfOk, OnErr};
ghost use Rattle.std.specs.List.{AllByRecursion};
ghost use Rattle.arena_rules.specs.PlainArena.{IsSound};
ghost use Rattle.page_trim.specs.FreePages.{IsIdle};
ghost use Rattle.page_trim.specs.Trimming.{AreListed, bytes_back, cut_back, consolidated_arena, trim_of, trim_with, trimmed_arena};

use crate::consolidating::consolidate_listed;
use crate::ranges::{PageRange, count_pages, free_pages};
use address_space::{Always, Space, Windows};
use arena_ground::Ground;
use arena_rules::Moves;
use chunk_tags::{Addr, Mode, NoMemory, PAGE, Tunables};
use consolidate_trim::trim_main;
use std::alloc::Global;
use std::marker::Model;

/// What of an arena was given up: ranges of whole pages inside free chunks, how many pages these are, the bytes that went
/// back off main's top, and how many pages of the system stay.
#[derive(Drop)]
pub struct Trimmed {
    pub(crate) ranges: Vec<PageRange>,
    pub(crate) pages: u64,
    pub(crate) back: u64,
    pub(crate) kept: u64,
}

impl Model for Trimmed {
    ghost use Rattle.std.specs.Prelude.{◌≡◌};
    ghost use Rattle.page_trim.specs.Trimming.{Trim};
    ghost use Rattle.page_trim.specs.FreePages.{pages_in};

    ghost Value = { Trim };

    ghost view = { λ t. record { ranges = t.ranges.items; back = t.back; kept = t.kept } };

    ghost invariant = { λ t. t.pages ≡ pages_in t.ranges.items };
}

/// Cuts main's top to a pad. Gives the bytes.
#[tactic(auto, unfolding(crate::specs::Trimming::bytes_back))]
fn cut_top(g: &mut Ground, pad: u64) -> u64
    requires { IsSound g.old.arena }
    ensures bytes { result ≡ bytes_back pad g.old.arena }
    ensures arena { g.new.arena ≡ cut_back result g.old.arena }
{
    if g.number() != 0 {
        return 0;
    }
    let t = Tunables {
        top_pad: pad,
        ..Tunables::defaults(Mode::Serial)
    };
    // Nobody else is told of it: the kernels of the threads aren't asked any more.
    let windows = Windows {
        main_max: t.main_max,
        heap_max: t.heap_max,
        heaps: t.heaps,
    };
    trim_main(g, 0, &mut Space::new(Always, 0, windows), &t)
}

/// What is given up of an arena whose top gave so many bytes back.
fn given_up(alloc: Global, g: &Ground, back: u64) -> Result<Trimmed, NoMemory>
    requires { IsSound g.now.arena }
    ensures trim { IfOk result (λ r. r ≡ trim_with back g.now.arena) }
    ensures idle { IfOk result (λ r. AllByRecursion (IsIdle g.now.arena.tiles) r.ranges) }
{
    g.laws();
    let tiles = g.tiles(alloc)?;
    let ranges = free_pages(alloc, tiles.as_slice())?;
    let system = g.system();
    let pages = count_pages(ranges.as_slice());
    Ok(Trimmed {
        ranges,
        pages,
        back,
        kept: (system / PAGE).saturating_sub(pages),
    })
}

/// Trims an arena, in the ten fast bins of which these chunks are, each list from its front: it is consolidated, main's top
/// is cut to `pad` bytes, and the whole pages inside free chunks are given up (glibc's `mtrim`, and `systrim` for main).
/// Memory is asked for only when all that is done.
#[tactic(auto, unfolding(crate::specs::Trimming::trimmed_arena, crate::specs::Trimming::trim_of))]
pub fn trim_arena(
    alloc: Global,
    g: &mut Ground,
    fast: &[Vec<Addr>],
    pad: u64,
) -> Result<Trimmed, NoMemory>
    requires ten { length fast.now ≡ 10 }
    requires listed { AreListed (map (λ l. l.items) fast.now) g.old.arena }

    // The arena is consolidated, and main's top shorter by what went back.
    ensures arena { g.new.arena ≡ trimmed_arena pad (map (λ l. l.items) fast.now) g.old.arena }

    // What is given up is exactly that.
    ensures trim { IfOk result (λ r. r ≡ trim_of pad (map (λ l. l.items) fast.now) g.old.arena) }

    // No page of it has a byte of a used chunk, of a chunk's words, of a fence or of top.
    ensures idle { IfOk result (λ r. AllByRecursion (IsIdle g.new.arena.tiles) r.ranges) }
    ensures sound { IsSound g.new.arena }
{
    consolidate_listed(g, fast);
    let back = cut_top(g, pad);
    given_up(alloc, g, back)
}
