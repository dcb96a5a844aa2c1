//! What places have at the end of a run.

ghost use Rattle.std.specs.Prelude.{◌≡◌, ◌*◌, ◌++◌, ◌≤◌, length, map, flat_map, option_map, IfOk, OnOk};
ghost use Rattle.fast_bins.specs.FastPorts.{fast_bin_count};
ghost use Rattle.arena_holds.specs.Places.{tray_count};
ghost use Rattle.serial_places.specs.SerialWays.{kept_ground, kept_slot, fast_lists, those_in};
ghost use Rattle.serial_places.specs.Trays.{full_trays};

use crate::slot::Slot;
use crate::tray::Tray;
use arena_choice::Book;
use arena_core::Arena;
use arena_ground::Ground;
use chunk_tags::{Addr, Block, NoMemory};
use mapped_chunks::DialState;
use std::alloc::Global;

/// What places of one order of calls have at the end of a run.
#[derive(Drop)]
pub struct SerialEnd {
    /// The arenas, by number.
    pub arenas: Vec<Arena<Ground>>,
    /// Ten fast bins an arena, the addresses of chunks, front first.
    pub fast: Vec<Vec<Addr>>,
    /// The book of arenas.
    pub book: Book,
    /// The blocks in trays, by the numbers of these.
    pub trays: Vec<(u32, Block)>,
    /// The words beside the arenas.
    pub dials: DialState,
}

/// Puts lists behind others.
fn append_lists(lists: &mut Vec<Vec<Addr>>, more: Vec<Vec<Addr>>) -> Result<(), NoMemory>
    ensures { OnOk result (lists.new.items ≡ lists.old.items ++ more.items) }
{
    for list in more {
        lists.push(list)?;
    }
    Ok(())
}

/// The arenas that are there, and the addresses in their fast bins.
pub fn split_slots(
    alloc: Global,
    slots: Vec<Option<Slot>>,
) -> Result<(Vec<Arena<Ground>>, Vec<Vec<Addr>>), NoMemory>
    ensures arenas { IfOk result (λ r. map kept_ground r.0.items
        ≡ map (λ s. s.kept) (those_in (map (option_map kept_slot) slots.items))) }
    ensures fast { IfOk result (λ r. map (λ l. l.items) r.1.items
        ≡ flat_map fast_lists (those_in (map (option_map kept_slot) slots.items))) }
    ensures ten { IfOk result (λ r. length r.1.items ≡ fast_bin_count * length r.0.items) }
{
    let mut arenas = Vec::new(alloc);
    let mut fast = Vec::new(alloc);
    for slot in slots {
        if let Some(Slot { arena, bins }) = slot {
            append_lists(&mut fast, bins.lists(alloc)?)?;
            arenas.push(arena)?;
        }
    }
    Ok((arenas, fast))
}

/// The blocks in trays, by the numbers of these.
pub fn blocks_in(alloc: Global, trays: Vec<Tray>) -> Result<Vec<(u32, Block)>, NoMemory>
    requires { length trays.items ≤ tray_count }
    ensures { IfOk result (λ blocks. blocks.items ≡ full_trays 0 trays.items) }
{
    let mut blocks = Vec::new(alloc);
    let mut number: u32 = 0;
    for tray in trays {
        if let Tray::Full(b) = tray {
            blocks.push((number, b))?;
        }
        number += 1;
    }
    Ok(blocks)
}
