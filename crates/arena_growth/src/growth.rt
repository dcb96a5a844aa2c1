//! Main grows.

ghost use Rattle.std.specs.Prelude.{◌≡◌, ◌+◌, ◌%◌, ◌<◌, ◌≤◌, ◌^◌, true, false, IsTrue, IfOk, OnOk, OnErr, ◌⊎◌};
ghost use Rattle.address_space.specs.Spaces.{break_passes, piece_passes};
ghost use Rattle.address_space.specs.declared.asks.Ask.TheVariants as asks;
ghost use Rattle.arena_rules.specs.PlainArena.{is_main};
ghost use Rattle.arena_rules.specs.MainPlaces.{IsPlaced};
ghost use Rattle.arena_rules.specs.Growth.{main_growth, piece_length, has_top_for, top_part};
ghost use Rattle.arena_rules.specs.Rules.{windows_of};
ghost use Rattle.consolidate_trim.specs.Lacks.{IsFull};
ghost use Rattle.arena_growth.specs.Asking.{IsSearchable, AsksFor};

use address_space::{Answer, Ask, Kernel, MAIN_START, PIECE_START, Space};
use arena_rules::{Moves, Said};
use chunk_tags::{NoMemory, Size, Tunables, page_up};
use consolidate_trim::{make_room, tell};

/// The smallest piece (glibc's `MMAP_AS_MORECORE_SIZE`).
const SMALLEST_PIECE: u64 = 1_048_576;

/// The part of a growth that main's top gives, while main is contiguous.
fn top_part<M: Moves>(g: &M) -> u64
    ensures { result ≡ top_part (M.plain g.now) }
{
    match g.top() {
        Some(top) if g.is_contiguous() => top.size.0,
        _ => 0,
    }
}

/// By how much the break grows for `nb` bytes: what they and the pad need beyond top, in whole pages.
pub fn growth_for<M: Moves>(g: &M, nb: Size, t: &Tunables) -> u64
    requires size { nb ≤ 2 ^ 63 + 16 }
    requires pad { t.now.top_pad < 2 ^ 31 }
    ensures { result ≡ main_growth t.now (M.plain g.now) nb }
{
    page_up((nb.0 + t.top_pad + 32).saturating_sub(top_part(g)))
}

/// Makes room for a growth of the break, where that doesn't pass its window.
fn make_break_room<M: Moves>(g: &mut M, growth: u64, t: &Tunables) -> Result<(), NoMemory>
    requires main { IsTrue (is_main (M.plain g.old)) }
    requires placed { IsPlaced (M.plain g.old) }
    requires tuned { IsSearchable t.now }
    requires some { 0 < growth }
    requires pages { growth % 4096 ≡ 0 }
    requires sum { growth ≤ 2 ^ 63 + 2 ^ 32 }
    ensures room { OnOk result
        (break_passes (windows_of t.now) ((M.plain g.old).break_at + growth) ≡ false
        → M.break_room g.new growth) }
    ensures arena { M.plain g.new ≡ M.plain g.old }
    ensures full { OnErr result (M.break_room g.new growth → ⊥) }
    ensures window { OnErr result
        (break_passes (windows_of t.now) ((M.plain g.old).break_at + growth) ≡ false) }
{
    if g.break_at() + growth - MAIN_START > t.main_max {
        return Ok(());
    }
    g.make_break_room(growth)
}

/// Asks for a growth of the break, with room made for it before, and keeps the answer. `false` is the refusal.
pub fn ask_break<M: Moves, K: Kernel>(
    g: &mut M,
    growth: u64,
    space: &mut Space<K>,
    t: &Tunables,
    said: &mut Vec<Said>,
) -> Result<bool, NoMemory>
    requires main { IsTrue (is_main (M.plain g.old)) }
    requires placed { IsPlaced (M.plain g.old) }
    requires tuned { IsSearchable t.now }
    requires windows { space.old.windows ≡ windows_of t.now }
    requires some { 0 < growth }
    requires pages { growth % 4096 ≡ 0 }
    requires sum { growth ≤ 2 ^ 63 + 2 ^ 32 }
    ensures asked { let at = (M.plain g.old).break_at in
        AsksFor K.port (asks.Break at (at + growth)) space.old said.old.items
        result space.new said.new.items }
    ensures room { IfOk result (λ granted. granted ≡ true → M.break_room g.new growth) }
    ensures arena { M.plain g.new ≡ M.plain g.old }
    ensures lacks { OnErr result (IsFull said.new
        ⊎ (break_passes (windows_of t.now) ((M.plain g.old).break_at + growth) ≡ false)
        × (M.break_room g.new growth → ⊥)) }
{
    make_break_room(g, growth, t)?;
    make_room(said)?;
    let old = g.break_at();
    let new = old + growth;
    match space.brk(old, new) {
        Answer::Granted => {
            tell(said, &Said::Asked(Ask::Break { old, new }, Answer::Granted));
            Ok(true)
        }
        Answer::Refused => {
            tell(said, &Said::Asked(Ask::Break { old, new }, Answer::Refused));
            Ok(false)
        }
    }
}

/// The length of a piece for `nb` bytes: what a contiguous break would have grown by, and at least the smallest.
pub fn piece_for<M: Moves>(g: &M, nb: Size, t: &Tunables) -> u64
    requires size { nb ≤ 2 ^ 63 + 16 }
    requires pad { t.now.top_pad < 2 ^ 31 }
    requires short { has_top_for (M.plain g.now) nb ≡ false }
    ensures { result ≡ piece_length t.now (M.plain g.now) nb }
{
    page_up(growth_for(g, nb, t) + top_part(g)).max(SMALLEST_PIECE)
}

/// Makes room for a piece, where that doesn't pass the window for pieces.
fn make_piece_room<M: Moves>(g: &mut M, len: u64, t: &Tunables) -> Result<(), NoMemory>
    requires main { IsTrue (is_main (M.plain g.old)) }
    requires placed { IsPlaced (M.plain g.old) }
    requires tuned { IsSearchable t.now }
    requires some { 0 < len }
    requires pages { len % 4096 ≡ 0 }
    requires sum { len ≤ 2 ^ 63 + 2 ^ 32 }
    ensures room { OnOk result
        (piece_passes (windows_of t.now) (M.plain g.old).next_piece len ≡ false
        → M.piece_room g.new len) }
    ensures arena { M.plain g.new ≡ M.plain g.old }
    ensures full { OnErr result (M.piece_room g.new len → ⊥) }
    ensures window { OnErr result
        (piece_passes (windows_of t.now) (M.plain g.old).next_piece len ≡ false) }
{
    if g.next_piece() + len - PIECE_START > t.main_max {
        return Ok(());
    }
    g.make_piece_room(len)
}

/// Asks for a piece, with room made for it before, and keeps the answer. `false` is the refusal.
pub fn ask_piece<M: Moves, K: Kernel>(
    g: &mut M,
    len: u64,
    space: &mut Space<K>,
    t: &Tunables,
    said: &mut Vec<Said>,
) -> Result<bool, NoMemory>
    requires main { IsTrue (is_main (M.plain g.old)) }
    requires placed { IsPlaced (M.plain g.old) }
    requires tuned { IsSearchable t.now }
    requires windows { space.old.windows ≡ windows_of t.now }
    requires some { 0 < len }
    requires pages { len % 4096 ≡ 0 }
    requires sum { len ≤ 2 ^ 63 + 2 ^ 32 }
    ensures asked { AsksFor K.port (asks.Piece (M.plain g.old).next_piece len)
        space.old said.old.items result space.new said.new.items }
    ensures room { IfOk result (λ granted. granted ≡ true → M.piece_room g.new len) }
    ensures arena { M.plain g.new ≡ M.plain g.old }
    ensures lacks { OnErr result (IsFull said.new
        ⊎ (piece_passes (windows_of t.now) (M.plain g.old).next_piece len ≡ false)
        × (M.piece_room g.new len → ⊥)) }
{
    make_piece_room(g, len, t)?;
    make_room(said)?;
    let addr = g.next_piece();
    match space.piece(addr, len) {
        Answer::Granted => {
            tell(
                said,
                &Said::Asked(Ask::Piece { addr, len }, Answer::Granted),
            );
            Ok(true)
        }
        Answer::Refused => {
            tell(
                said,
                &Said::Asked(Ask::Piece { addr, len }, Answer::Refused),
            );
            Ok(false)
        }
    }
}
