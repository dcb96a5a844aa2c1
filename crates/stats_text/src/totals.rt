//! The bytes in use, and the text of malloc_stats(3).

ghost use Rattle.std.specs.Prelude.{◌≡◌, ◌≤◌, ◌<◌, ◌+◌, ◌^◌, ◌++◌, ◌==◌, All, filter, ℕ, IsPermutation, OnOk, OnErr, IfOk};
ghost use Rattle.stats_text.specs.Totals.{HasTotals, AreWithinSystem, is_idle_place, in_use_of, idle_bytes_of, in_use_bytes_of, tile_bytes_of, system_bytes_of, used_bytes_of, total_line, bytes_lines, arena_totals, all_arena_totals, in_list_order, mapped_maxima, totals_lines, totals_of, statistics_of};
ghost use Rattle.stats_text.specs.Appends.{LacksRoom, KeepsText};

use crate::views::{ArenaView, DialsView, Place, Snapshot, TileView};
use crate::{push_numbered, push_right, push_text};
use chunk_tags::NoMemory;
use std::alloc::Global;

/// Whether a chunk's bytes aren't in use: top, fast and binned ones.
pub(crate) fn is_idle(place: Place) -> bool
    ensures { result ≡ is_idle_place place }
{
    matches!(place, Place::Fast { .. } | Place::Bin { .. } | Place::Top)
}

/// The bytes of the chunks that aren't in use.
#[tactic(auto, unfolding(crate::specs::Totals::idle_bytes_of, crate::specs::Totals::tile_bytes_of))]
fn idle_bytes(tiles: &[TileView]) -> u64
    requires { idle_bytes_of tiles.now < 2 ^ 64 }
    ensures { result ≡ idle_bytes_of tiles.now }
{
    tiles
        .iter()
        .filter(|tile| is_idle(tile.place))
        .map(|tile| tile.size.0)
        .sum()
}

/// The bytes of an arena that are in use: those that it has from the system less top and the chunks in its
/// fast and other bins. Cached chunks count as in use (glibc's `__malloc_stats`, in 64 bits).
#[tactic(auto, using(crate::proofs::Sums::idle_and_in_use), unfolding(crate::specs::Totals::in_use_of))]
pub fn in_use(a: &ArenaView) -> u64
    requires { idle_bytes_of a.now.tiles ≤ a.now.system }
    ensures value { result ≡ in_use_of a.now }
    // Where chunks and headers make up all system bytes, these are the bytes of the chunks in use and of the headers.
    ensures parts { (headers : ℕ) → tile_bytes_of a.now.tiles + headers ≡ a.now.system →
        result ≡ in_use_bytes_of a.now.tiles + headers }
{
    a.system - idle_bytes(&a.tiles)
}

/// The bytes of all arenas from the system.
#[tactic(auto, unfolding(crate::specs::Totals::system_bytes_of))]
fn system_bytes(arenas: &[ArenaView]) -> u64
    requires { system_bytes_of arenas.now < 2 ^ 64 }
    ensures { result ≡ system_bytes_of arenas.now }
{
    arenas.iter().map(|arena| arena.system).sum()
}

/// The bytes of all arenas in use.
#[tactic(auto, unfolding(crate::specs::Totals::used_bytes_of))]
fn used_bytes(arenas: &[ArenaView]) -> u64
    requires idle { AreWithinSystem arenas.now }
    requires fits { system_bytes_of arenas.now < 2 ^ 64 }
    ensures value { result ≡ used_bytes_of arenas.now }
    ensures within { result ≤ system_bytes_of arenas.now }
{
    let mut used = 0;
    for arena in arenas {
        used += in_use(arena);
    }
    used
}

/// Appends a line with a number at its right.
#[tactic(auto, unfolding(crate::specs::Totals::total_line))]
fn push_total(out: &mut Vec<u8>, name: &[u8], n: u64) -> Result<(), NoMemory>
    ensures ok { OnOk result (out.new.items ≡ out.old.items ++ total_line name.now n) }
    ensures full { OnErr result (LacksRoom out.old (total_line name.now n)) }
    ensures kept { KeepsText out.old out.new }
{
    push_text(out, name)?;
    push_right(out, n)?;
    push_text(out, b"\n")
}

/// Appends the lines of the bytes from the system and of those in use.
#[tactic(auto, unfolding(crate::specs::Totals::bytes_lines))]
fn push_bytes(out: &mut Vec<u8>, system: u64, used: u64) -> Result<(), NoMemory>
    ensures ok { OnOk result (out.new.items ≡ out.old.items ++ bytes_lines system used) }
    ensures full { OnErr result (LacksRoom out.old (bytes_lines system used)) }
    ensures kept { KeepsText out.old out.new }
{
    push_total(out, b"system bytes     = ", system)?;
    push_total(out, b"in use bytes     = ", used)
}

/// Appends an arena's lines.
#[tactic(auto, unfolding(crate::specs::Totals::arena_totals))]
fn push_arena_totals(out: &mut Vec<u8>, a: &ArenaView) -> Result<(), NoMemory>
    requires { idle_bytes_of a.now.tiles ≤ a.now.system }
    ensures ok { OnOk result (out.new.items ≡ out.old.items ++ arena_totals a.now) }
    ensures full { OnErr result (LacksRoom out.old (arena_totals a.now)) }
    ensures kept { KeepsText out.old out.new }
{
    push_numbered(out, b"Arena ", u64::from(a.list))?;
    push_text(out, b":\n")?;
    push_bytes(out, a.system, in_use(a))
}

/// Appends the lines of the arena at this place of the list of arenas.
#[tactic(auto, unfolding(crate::specs::Totals::all_arena_totals))]
fn push_arena_at(out: &mut Vec<u8>, arenas: &[ArenaView], place: usize) -> Result<(), NoMemory>
    requires { AreWithinSystem arenas.now }
    ensures ok { OnOk result (out.new.items ≡
        out.old.items ++ all_arena_totals (filter (λ a. a.list == place) arenas.now)) }
    ensures full { OnErr result (LacksRoom out.old
        (all_arena_totals (filter (λ a. a.list == place) arenas.now))) }
    ensures kept { KeepsText out.old out.new }
{
    for arena in arenas {
        if usize::from(arena.list) == place {
            push_arena_totals(out, arena)?;
        }
    }
    Ok(())
}

/// How many places the list of arenas has: one more than the highest that an arena stands at.
fn place_count(arenas: &[ArenaView]) -> usize
    ensures all { All (λ a. a.list < result) arenas.now }
    ensures few { result ≤ 256 }
{
    let mut count = 0;
    for arena in arenas {
        count = count.max(usize::from(arena.list) + 1);
    }
    count
}

/// Appends the lines of all arenas, in the order of the list of arenas.
#[tactic(auto, using(crate::proofs::ListOrder::all_places))]
fn push_in_list_order(out: &mut Vec<u8>, arenas: &[ArenaView]) -> Result<(), NoMemory>
    requires { AreWithinSystem arenas.now }
    ensures ok { OnOk result (out.new.items ≡
        out.old.items ++ all_arena_totals (in_list_order arenas.now)) }
    ensures full { OnErr result (LacksRoom out.old (all_arena_totals (in_list_order arenas.now))) }
    ensures kept { KeepsText out.old out.new }
{
    for place in 0..place_count(arenas) {
        push_arena_at(out, arenas, place)?;
    }
    Ok(())
}

/// Appends the lines of the most chunks and bytes that were mapped.
#[tactic(auto, unfolding(crate::specs::Totals::mapped_maxima))]
fn push_mapped_maxima(out: &mut Vec<u8>, dials: &DialsView) -> Result<(), NoMemory>
    ensures ok { OnOk result (out.new.items ≡ out.old.items ++ mapped_maxima dials.now) }
    ensures full { OnErr result (LacksRoom out.old (mapped_maxima dials.now)) }
    ensures kept { KeepsText out.old out.new }
{
    push_total(out, b"max mmap regions = ", dials.max_mapped)?;
    push_total(out, b"max mmap bytes   = ", dials.max_bytes)
}

/// Appends the totals, and the most chunks and bytes that were mapped.
#[tactic(auto, unfolding(crate::specs::Totals::totals_lines))]
fn push_totals(out: &mut Vec<u8>, system: u64, used: u64, dials: &DialsView) -> Result<(), NoMemory>
    ensures ok { OnOk result (out.new.items ≡ out.old.items ++ totals_lines system used dials.now) }
    ensures full { OnErr result (LacksRoom out.old (totals_lines system used dials.now)) }
    ensures kept { KeepsText out.old out.new }
{
    push_text(out, b"Total (incl. mmap):\n")?;
    push_bytes(out, system, used)?;
    push_mapped_maxima(out, dials)
}

/// Appends the five last lines of the statistics: the totals, and the most chunks and bytes that were mapped.
#[tactic(auto, unfolding(crate::specs::Totals::totals_of))]
pub fn append_totals(out: &mut Vec<u8>, s: &Snapshot) -> Result<(), NoMemory>
    requires { HasTotals s.now }
    ensures ok { OnOk result (out.new.items ≡ out.old.items ++ totals_of s.now) }
    ensures full { OnErr result (LacksRoom out.old (totals_of s.now)) }
    ensures kept { KeepsText out.old out.new }
{
    let system = system_bytes(&s.arenas) + s.dials.bytes;
    let used = used_bytes(&s.arenas) + s.dials.bytes;
    push_totals(out, system, used, &s.dials)
}

/// Appends the text of malloc_stats(3): each arena in list order, and the totals.
#[tactic(auto, using(crate::proofs::ListOrder::none_left_out), unfolding(crate::specs::Totals::statistics_of))]
pub fn append_stats(out: &mut Vec<u8>, s: &Snapshot) -> Result<(), NoMemory>
    requires { HasTotals s.now }
    ensures ok { OnOk result (out.new.items ≡ out.old.items ++ statistics_of s.now) }
    ensures full { OnErr result (LacksRoom out.old (statistics_of s.now)) }
    ensures kept { KeepsText out.old out.new }
    // None is left out, wherever the arenas stand.
    ensures each { IsPermutation s.now.arenas (in_list_order s.now.arenas) }
{
    push_in_list_order(out, &s.arenas)?;
    append_totals(out, s)
}

/// The text of malloc_stats(3): each arena in list order, and the totals.
pub fn stats_text(alloc: Global, s: &Snapshot) -> Result<Vec<u8>, NoMemory>
    requires { HasTotals s.now }
    ensures { IfOk result (λ text. text.items ≡ statistics_of s.now) }
{
    let mut text = Vec::new(alloc);
    append_stats(&mut text, s)?;
    Ok(text)
}
