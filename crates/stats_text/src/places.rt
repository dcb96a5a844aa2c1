//! The lines of a report that say where each chunk is.

ghost use Rattle.std.specs.Prelude.{◌≡◌, ◌+◌, ◌≤◌, ◌++◌, codes, decimal, drop, length, OnOk, OnErr};
ghost use Rattle.stats_text.specs.Views.{lists_of};
ghost use Rattle.stats_text.specs.Report.{address_or_dash, place_text, tile_line, tile_lines, mapped_line, mapped_lines, numbered_list, bin_line, bin_lines, arena_extent, arena_line, arena_section, arena_sections, cache_line, cache_lines};
ghost use Rattle.stats_text.specs.Appends.{LacksRoom, KeepsText};

use crate::views::{ArenaView, CacheView, Place, TileView};
use crate::{
    push_address, push_addresses, push_number, push_numbered, push_text, put_block, put_number,
    put_text,
};
use chunk_tags::{Addr, NoMemory};

/// Appends a chunk's user address, or a dash where there is none.
#[tactic(auto, unfolding(crate::specs::Report::address_or_dash))]
fn push_address_or_dash(out: &mut Vec<u8>, at: Option<Addr>) -> Result<(), NoMemory>
    ensures ok { OnOk result (out.new.items ≡ out.old.items ++ address_or_dash at) }
    ensures full { OnErr result (LacksRoom out.old (address_or_dash at)) }
    ensures kept { KeepsText out.old out.new }
{
    match at {
        None => push_text(out, b"-"),
        Some(at) => push_address(out, at),
    }
}

/// Puts a word and a number before `end`, and gives the place where the word begins.
fn put_numbered(text: &mut [u8], end: usize, word: &[u8], n: u64) -> usize
    requires { (length word.now + 20 ≤ end) × (end ≤ length text.old) }
    ensures start { (result + length word.now ≤ end) × (end ≤ result + length word.now + 20) }
    ensures length { length text.new ≡ length text.old }
    ensures written { drop result text.new ≡ (word.now ++ decimal n) ++ drop end text.old }
{
    let end = put_number(text, end, n);
    put_text(text, end, word)
}

/// Puts where a chunk is before `end`, and gives the place where it begins.
#[tactic(auto, unfolding(crate::specs::Report::place_text))]
fn put_place(text: &mut [u8], end: usize, place: Place) -> usize
    requires { (46 ≤ end) × (end ≤ length text.old) }
    ensures start { (result ≤ end) × (end ≤ result + 46) }
    ensures length { length text.new ≡ length text.old }
    ensures written { drop result text.new ≡ place_text place ++ drop end text.old }
{
    match place {
        Place::Live { thread, name } => {
            let end = put_numbered(text, end, b" ", u64::from(name));
            put_numbered(text, end, b"live ", u64::from(thread))
        }
        Place::Cache { thread } => put_numbered(text, end, b"cache ", u64::from(thread)),
        Place::Structure { thread } => put_numbered(text, end, b"structure ", u64::from(thread)),
        Place::Tray { tray } => put_numbered(text, end, b"tray ", u64::from(tray)),
        Place::Fast { bin } => put_numbered(text, end, b"fast ", u64::from(bin)),
        Place::Bin { bin } => put_numbered(text, end, b"bin ", u64::from(bin)),
        Place::Top => put_text(text, end, b"top"),
        Place::Fence => put_text(text, end, b"fence"),
    }
}

/// Puts the end of a chunk's line, where the chunk is, at the end.
fn put_tail(text: &mut [u8], place: Place) -> usize
    requires { 48 ≤ length text.old }
    ensures start { (result ≤ length text.old) × (length text.old ≤ result + 48) }
    ensures length { length text.new ≡ length text.old }
    ensures written { drop result text.new ≡ codes " " ++ place_text place ++ codes "\n" }
{
    let end = text.len();
    let end = put_text(text, end, b"\n");
    let end = put_place(text, end, place);
    put_text(text, end, b" ")
}

/// Appends the line of an arena's chunk. It is made in a small array and appended at once.
#[tactic(auto, unfolding(crate::specs::Report::tile_line))]
fn push_tile(out: &mut Vec<u8>, tile: &TileView) -> Result<(), NoMemory>
    ensures ok { OnOk result (out.new.items ≡ out.old.items ++ tile_line tile.now) }
    ensures full { OnErr result (LacksRoom out.old (tile_line tile.now)) }
    ensures kept { KeepsText out.old out.new }
{
    let mut text = [0u8; 83];
    let start = put_tail(&mut text, tile.place);
    let start = put_block(&mut text, start, tile.addr, tile.size);
    push_text(out, &text[start..])
}

/// Appends the lines of an arena's chunks.
#[tactic(auto, unfolding(crate::specs::Report::tile_lines))]
fn push_tiles(out: &mut Vec<u8>, tiles: &[TileView]) -> Result<(), NoMemory>
    ensures ok { OnOk result (out.new.items ≡ out.old.items ++ tile_lines tiles.now) }
    ensures full { OnErr result (LacksRoom out.old (tile_lines tiles.now)) }
    ensures kept { KeepsText out.old out.new }
{
    for tile in tiles {
        push_tile(out, tile)?;
    }
    Ok(())
}

/// Appends the line of a mapped chunk.
#[tactic(auto, unfolding(crate::specs::Report::mapped_line))]
fn push_mapped(out: &mut Vec<u8>, tile: &TileView) -> Result<(), NoMemory>
    ensures ok { OnOk result (out.new.items ≡ out.old.items ++ mapped_line tile.now) }
    ensures full { OnErr result (LacksRoom out.old (mapped_line tile.now)) }
    ensures kept { KeepsText out.old out.new }
{
    let mut text = [0u8; 109];
    let start = put_tail(&mut text, tile.place);
    let start = put_numbered(&mut text, start, b" lead ", tile.lead);
    let start = put_block(&mut text, start, tile.addr, tile.size);
    push_text(out, &text[start..])
}

/// Appends the lines of mapped chunks.
#[tactic(auto, unfolding(crate::specs::Report::mapped_lines))]
pub(crate) fn push_mapped_chunks(out: &mut Vec<u8>, tiles: &[TileView]) -> Result<(), NoMemory>
    ensures ok { OnOk result (out.new.items ≡ out.old.items ++ mapped_lines tiles.now) }
    ensures full { OnErr result (LacksRoom out.old (mapped_lines tiles.now)) }
    ensures kept { KeepsText out.old out.new }
{
    for tile in tiles {
        push_mapped(out, tile)?;
    }
    Ok(())
}

/// Appends the number and the chunks of a list.
#[tactic(auto, unfolding(crate::specs::Report::numbered_list))]
fn push_list(out: &mut Vec<u8>, number: u8, ats: &[Addr]) -> Result<(), NoMemory>
    ensures ok { OnOk result (out.new.items ≡ out.old.items ++ numbered_list number ats.now) }
    ensures full { OnErr result (LacksRoom out.old (numbered_list number ats.now)) }
    ensures kept { KeepsText out.old out.new }
{
    push_number(out, u64::from(number))?;
    push_text(out, b":")?;
    push_addresses(out, ats)?;
    push_text(out, b"\n")
}

/// Appends the line of a bin that isn't empty.
#[tactic(auto, unfolding(crate::specs::Report::bin_line))]
fn push_bin(out: &mut Vec<u8>, name: &[u8], bin: &(u8, Vec<Addr>)) -> Result<(), NoMemory>
    ensures ok { OnOk result (out.new.items ≡
        out.old.items ++ bin_line name.now (bin.now.0, bin.now.1.items)) }
    ensures full { OnErr result
        (LacksRoom out.old (bin_line name.now (bin.now.0, bin.now.1.items))) }
    ensures kept { KeepsText out.old out.new }
{
    if bin.1.is_empty() {
        return Ok(());
    }
    push_text(out, name)?;
    push_list(out, bin.0, &bin.1)
}

/// Appends the lines of the bins that aren't empty.
#[tactic(auto, unfolding(crate::specs::Report::bin_lines))]
fn push_bins(out: &mut Vec<u8>, name: &[u8], bins: &[(u8, Vec<Addr>)]) -> Result<(), NoMemory>
    ensures ok { OnOk result (out.new.items ≡
        out.old.items ++ bin_lines name.now (lists_of bins.now)) }
    ensures full { OnErr result (LacksRoom out.old (bin_lines name.now (lists_of bins.now))) }
    ensures kept { KeepsText out.old out.new }
{
    for bin in bins {
        push_bin(out, name, bin)?;
    }
    Ok(())
}

/// Appends the last remainder, to the end of an arena's line.
fn push_last(out: &mut Vec<u8>, last: Option<Addr>) -> Result<(), NoMemory>
    ensures ok { OnOk result (out.new.items ≡
        out.old.items ++ (codes " last " ++ address_or_dash last ++ codes "\n")) }
    ensures full { OnErr result
        (LacksRoom out.old (codes " last " ++ address_or_dash last ++ codes "\n")) }
    ensures kept { KeepsText out.old out.new }
{
    push_text(out, b" last ")?;
    push_address_or_dash(out, last)?;
    push_text(out, b"\n")
}

/// Appends the beginning of an arena's line: its number, its bytes, and the most that these were.
#[tactic(auto, unfolding(crate::specs::Report::arena_extent))]
fn push_extent(out: &mut Vec<u8>, a: &ArenaView) -> Result<(), NoMemory>
    ensures ok { OnOk result (out.new.items ≡ out.old.items ++ arena_extent a.now) }
    ensures full { OnErr result (LacksRoom out.old (arena_extent a.now)) }
    ensures kept { KeepsText out.old out.new }
{
    push_numbered(out, b"arena ", u64::from(a.number))?;
    push_numbered(out, b" system ", a.system)?;
    push_numbered(out, b" max ", a.max)
}

/// Appends an arena's own line.
#[tactic(auto, unfolding(crate::specs::Report::arena_line))]
fn push_arena_line(out: &mut Vec<u8>, a: &ArenaView) -> Result<(), NoMemory>
    ensures ok { OnOk result (out.new.items ≡ out.old.items ++ arena_line a.now) }
    ensures full { OnErr result (LacksRoom out.old (arena_line a.now)) }
    ensures kept { KeepsText out.old out.new }
{
    push_extent(out, a)?;
    push_numbered(out, b" list ", u64::from(a.list))?;
    push_last(out, a.last)
}

/// Appends an arena: its line, its chunks and its bins.
#[tactic(auto, unfolding(crate::specs::Report::arena_section))]
fn push_arena(out: &mut Vec<u8>, a: &ArenaView) -> Result<(), NoMemory>
    ensures ok { OnOk result (out.new.items ≡ out.old.items ++ arena_section a.now) }
    ensures full { OnErr result (LacksRoom out.old (arena_section a.now)) }
    ensures kept { KeepsText out.old out.new }
{
    push_arena_line(out, a)?;
    push_tiles(out, &a.tiles)?;
    push_bins(out, b"fast ", &a.fast)?;
    push_bins(out, b"bin ", &a.bins)
}

/// Appends the arenas.
#[tactic(auto, unfolding(crate::specs::Report::arena_sections))]
pub(crate) fn push_arenas(out: &mut Vec<u8>, arenas: &[ArenaView]) -> Result<(), NoMemory>
    ensures ok { OnOk result (out.new.items ≡ out.old.items ++ arena_sections arenas.now) }
    ensures full { OnErr result (LacksRoom out.old (arena_sections arenas.now)) }
    ensures kept { KeepsText out.old out.new }
{
    for arena in arenas {
        push_arena(out, arena)?;
    }
    Ok(())
}

/// Appends the line of a cache's list that isn't empty.
#[tactic(auto, unfolding(crate::specs::Report::cache_line))]
fn push_cache(out: &mut Vec<u8>, cache: &CacheView) -> Result<(), NoMemory>
    ensures ok { OnOk result (out.new.items ≡ out.old.items ++ cache_line cache.now) }
    ensures full { OnErr result (LacksRoom out.old (cache_line cache.now)) }
    ensures kept { KeepsText out.old out.new }
{
    if cache.addrs.is_empty() {
        return Ok(());
    }
    push_numbered(out, b"cache ", u64::from(cache.thread))?;
    push_text(out, b" ")?;
    push_list(out, cache.bin, &cache.addrs)
}

/// Appends the lines of the caches' lists that aren't empty.
#[tactic(auto, unfolding(crate::specs::Report::cache_lines))]
pub(crate) fn push_caches(out: &mut Vec<u8>, caches: &[CacheView]) -> Result<(), NoMemory>
    ensures ok { OnOk result (out.new.items ≡ out.old.items ++ cache_lines caches.now) }
    ensures full { OnErr result (LacksRoom out.old (cache_lines caches.now)) }
    ensures kept { KeepsText out.old out.new }
{
    for cache in caches {
        push_cache(out, cache)?;
    }
    Ok(())
}
