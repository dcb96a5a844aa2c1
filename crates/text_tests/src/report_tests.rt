//! The forms of the lines, and that each public call succeeds. Where nothing else is said, the texts wanted are
//! those of a second implementation of the rules. Whole reports are files of `tests/replay`.

ghost use Rattle.std.specs.Prelude.{◌≡◌, ◌<◌, ◌≤◌, ◌+◌, ◌^◌, true};
ghost use Rattle.stats_text.specs.Totals.{HasTotals, AreWithinSystem, is_idle_place, idle_bytes_of, system_bytes_of};

use crate::snapshots;
use chunk_tags::{Addr, NoMemory, Size};
use stats_text::{
    ArenaView, Outcome, Place, Record, Sink3, Snapshot, Source3, TileView, append_places,
    append_record, append_stats, append_summary, append_totals, count_outcomes, in_use,
    places_text, record_line, stats_text,
};
use std::alloc::Global;
use std::process::Abort;
use std::test::Fail;

/// Whether a chunk's bytes aren't in use.
fn is_idle(place: Place) -> bool
    ensures { result ≡ is_idle_place place }
{
    matches!(place, Place::Fast { .. } | Place::Bin { .. } | Place::Top)
}

/// Whether the idle bytes of these chunks are at most the system bytes.
#[tactic(auto, unfolding(stats_text::specs::Totals::idle_bytes_of, stats_text::specs::Totals::tile_bytes_of))]
fn are_idle_within(tiles: &[TileView], system: u64) -> bool
    ensures { result ≡ true → idle_bytes_of tiles.now ≤ system }
{
    let mut idle = 0;
    for tile in tiles {
        if is_idle(tile.place) {
            if tile.size.0 > system - idle {
                return false;
            }
            idle += tile.size.0;
        }
    }
    true
}

/// Whether an arena has no more idle bytes than system bytes.
fn is_within(a: &ArenaView) -> bool
    ensures { result ≡ true → idle_bytes_of a.now.tiles ≤ a.now.system }
{
    are_idle_within(&a.tiles, a.system)
}

/// Whether that holds of each arena.
fn are_within(arenas: &[ArenaView]) -> bool
    ensures { result ≡ true → AreWithinSystem arenas.now }
{
    for arena in arenas {
        if !is_within(arena) {
            return false;
        }
    }
    true
}

/// Whether the bytes from the system and these are below 2^64 together.
#[tactic(auto, unfolding(stats_text::specs::Totals::system_bytes_of))]
fn fit(arenas: &[ArenaView], bytes: u64) -> bool
    ensures { result ≡ true → system_bytes_of arenas.now + bytes < 2 ^ 64 }
{
    let mut all = bytes;
    for arena in arenas {
        if arena.system > u64::MAX - all {
            return false;
        }
        all += arena.system;
    }
    true
}

/// Whether the totals can be taken.
fn has_totals(s: &Snapshot) -> bool
    ensures { result ≡ true → HasTotals s.now }
{
    let within = are_within(&s.arenas);
    within && fit(&s.arenas, s.dials.bytes)
}

/// A snapshot's text: its places, and its statistics behind them.
fn text_of(alloc: Global, s: &Snapshot) -> Result<Vec<u8>, NoMemory>
    requires { HasTotals s.now }
{
    let mut text = places_text(alloc, s)?;
    append_stats(&mut text, s)?;
    Ok(text)
}

/// The same, of the other calls for both.
fn same_text_of(alloc: Global, s: &Snapshot) -> Result<Vec<u8>, NoMemory>
    requires { HasTotals s.now }
{
    let stats = stats_text(alloc, s)?;
    let mut text = Vec::new(alloc);
    append_places(&mut text, s)?;
    text.extend_from_slice(&stats)?;
    Ok(text)
}

/// What is to be written for the snapshot of mapped chunks.
const MAPPED_CHUNKS: &str = "\
arena 0 system 135168 max 135168 list 0 last -
0x555555559010 656 structure 0
0x5555555592a0 131088 live 0 1
0x5555555792b0 3424 top
mapped
0x600000000010 135168 lead 0 tray 9
0x600000022000 200720 lead 4080 live 0 3
thread 0 arena 0
book free - next - limit 0
dials threshold 143360 trim 286720 mapped 2 bytes 339968
Arena 0:
system bytes     =     135168
in use bytes     =     131744
Total (incl. mmap):
system bytes     =     475136
in use bytes     =     471712
max mmap regions =          3
max mmap bytes   =     483328
";

/// A snapshot's text, appended behind another and made by itself.
#[test]
fn a_snapshot_is_written(rt: HostRuntime) -> Result<(), Fail> {
    let s = snapshots::mapped_chunks(rt.alloc())?;
    let fits = has_totals(&s);
    assert!(rt; fits);
    let text = text_of(rt.alloc(), &s)?;
    let same = same_text_of(rt.alloc(), &s)?;
    assert_eq!(rt; text.as_slice(), MAPPED_CHUNKS.as_bytes());
    assert_eq!(rt; same.as_slice(), MAPPED_CHUNKS.as_bytes());
    Ok(())
}

const LAST_LINES: &str = "\
Total (incl. mmap):
system bytes     =     475136
in use bytes     =     471712
max mmap regions =          3
max mmap bytes   =     483328
";

/// The five last lines stand alone.
#[test]
fn totals_stand_alone(rt: HostRuntime) -> Result<(), Fail> {
    let s = snapshots::mapped_chunks(rt.alloc())?;
    let fits = has_totals(&s);
    assert!(rt; fits);
    let mut text = Vec::new(rt.alloc());
    append_totals(&mut text, &s)?;
    assert_eq!(rt; text.as_slice(), LAST_LINES.as_bytes());
    Ok(())
}

#[test]
fn bytes_in_use_stand_alone(rt: HostRuntime) -> Result<(), Fail> {
    let s = snapshots::mapped_chunks(rt.alloc())?;
    for arena in &s.arenas {
        let within = is_within(arena);
        assert!(rt; within);
        assert_eq!(rt; in_use(arena), 131_744);
    }
    Ok(())
}

/// Written by hand: the arenas at place 7, at place 200, and again at place 200.
const BY_PLACE: &str = "\
Arena 7:
system bytes     =       8192
in use bytes     =       8192
Arena 200:
system bytes     =       4096
in use bytes     =       4096
Arena 200:
system bytes     =      12288
in use bytes     =      12288
Total (incl. mmap):
system bytes     =      24576
in use bytes     =      24576
max mmap regions =          0
max mmap bytes   =          0
";

/// No arena is left out, wherever it stands.
#[test]
fn far_places_are_written(rt: HostRuntime) -> Result<(), Fail> {
    let alloc = rt.alloc();
    let s = snapshots::far_places(alloc)?;
    let fits = has_totals(&s);
    assert!(rt; fits);
    assert_eq!(rt; stats_text(alloc, &s)?.as_slice(), BY_PLACE.as_bytes());
    Ok(())
}

/// An answer is written so, and with this hold behind it where the report is one of threads.
fn expect_answer(
    rt: &impl Abort,
    alloc: Global,
    said: Outcome,
    serial: &str,
    hold: &str,
) -> Result<(), NoMemory> {
    let record = Record {
        line: Vec::from_slice(alloc, b"0 m 1 24")?,
        said,
    };
    let mut text = record_line(alloc, &record, false)?;
    append_record(&mut text, b"0 f 1", &said, true)?;
    let want = format!(in alloc; "0 m 1 24 -> {serial}\n0 f 1 -> {serial}{hold}\n")?;
    assert_eq!(rt; text.as_slice(), want.as_bytes());
    Ok(())
}

const ADDR: Addr = Addr(0x555555559290);

const SIZE: Size = Size(32);

const ARENA: Source3 = Source3::Arena { a: 1, hold: 2 };

const BINNED: Sink3 = Sink3::Binned { a: 1, hold: 12 };

fn got(from: Source3) -> Outcome {
    Outcome::Got {
        addr: ADDR,
        size: SIZE,
        from,
    }
}

fn kept(hold: Option<u64>) -> Outcome {
    Outcome::Kept {
        addr: ADDR,
        size: SIZE,
        hold,
    }
}

fn moved(from: Source3) -> Outcome {
    Outcome::Moved {
        addr: ADDR,
        size: SIZE,
        from,
    }
}

fn freed(to: Sink3, by_realloc: bool) -> Outcome {
    Outcome::Freed { to, by_realloc }
}

#[test]
fn blocks_are_written(rt: HostRuntime) -> Result<(), Fail> {
    for (said, serial, hold) in [
        (got(Source3::Cached), "0x5555555592a0 32 cached", ""),
        (got(ARENA), "0x5555555592a0 32 arena 1", " hold 2"),
        (got(Source3::Mapped), "0x5555555592a0 32 mapped", ""),
        (kept(None), "0x5555555592a0 32 kept", ""),
        (kept(Some(3)), "0x5555555592a0 32 kept", " hold 3"),
        (moved(Source3::Cached), "0x5555555592a0 32 moved cached", ""),
        (moved(ARENA), "0x5555555592a0 32 moved arena 1", " hold 2"),
        (moved(Source3::Mapped), "0x5555555592a0 32 moved mapped", ""),
    ] {
        expect_answer(&rt, rt.alloc(), said, serial, hold)?;
    }
    Ok(())
}

#[test]
fn frees_are_written(rt: HostRuntime) -> Result<(), Fail> {
    for (said, serial, hold) in [
        (freed(Sink3::Cached, false), "cached", ""),
        (freed(Sink3::Fast { a: 0, bin: 6 }, false), "fast 0 6", ""),
        (freed(BINNED, false), "binned 1", " hold 12"),
        (freed(Sink3::Unmapped, false), "unmapped", ""),
        (freed(BINNED, true), "freed binned 1", " hold 12"),
    ] {
        expect_answer(&rt, rt.alloc(), said, serial, hold)?;
    }
    Ok(())
}

#[test]
fn trays_are_written(rt: HostRuntime) -> Result<(), Fail> {
    let taken = Outcome::Taken {
        addr: ADDR,
        size: SIZE,
    };
    for (said, text) in [
        (Outcome::Posted, "posted"),
        (taken, "taken 0x5555555592a0 32"),
        (Outcome::Missed { seen: 0 }, "missed empty"),
        (Outcome::Missed { seen: 1 }, "missed claimed"),
    ] {
        expect_answer(&rt, rt.alloc(), said, text, "")?;
    }
    Ok(())
}

/// Answers of calls that gave and took no block.
#[test]
fn other_answers_are_written(rt: HostRuntime) -> Result<(), Fail> {
    for (said, text) in [
        (Outcome::Null(0), "null big"),
        (Outcome::Null(1), "null align"),
        (Outcome::Null(2), "null refused"),
        (Outcome::Skip, "skip"),
        (Outcome::Ended, "ended"),
    ] {
        expect_answer(&rt, rt.alloc(), said, text, "")?;
    }
    Ok(())
}

const SUMMARY: &str = "\
ptmsummary 1
lines 16
got 5
null 4
missed 2
skip 1
Total (incl. mmap):
system bytes     =     475136
in use bytes     =     471712
max mmap regions =          3
max mmap bytes   =     483328
";

/// Each answer counts as a line, and one that takes a block from a tray as nothing else.
#[test]
fn a_summary_counts_answers(rt: HostRuntime) -> Result<(), Fail> {
    let taken = Outcome::Taken {
        addr: ADDR,
        size: SIZE,
    };
    let counts = count_outcomes(&[
        got(Source3::Cached),
        Outcome::Posted,
        got(ARENA),
        Outcome::Null(2),
        taken,
        got(Source3::Mapped),
        Outcome::Missed { seen: 0 },
        kept(None),
        Outcome::Null(0),
        Outcome::Null(1),
        moved(ARENA),
        freed(BINNED, true),
        Outcome::Missed { seen: 1 },
        Outcome::Null(2),
        Outcome::Skip,
        Outcome::Ended,
    ]);
    let s = snapshots::mapped_chunks(rt.alloc())?;
    let fits = has_totals(&s);
    assert!(rt; fits);
    let mut text = Vec::new(rt.alloc());
    append_summary(&mut text, &counts, &s)?;
    assert_eq!(rt; text.as_slice(), SUMMARY.as_bytes());
    Ok(())
}
