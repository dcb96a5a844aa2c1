//! The trays of a run.

ghost use Rattle.std.specs.Prelude.{◌≡◌, ◌+◌, ◌-◌, ◌<◌, ◌≤◌, ◌++◌, length, replicate, vec_capacity, IfOk, IfErr};
ghost use Rattle.arena_holds.specs.Places.{tray_count};
ghost use Rattle.arena_holds.specs.Returning.{seen_full, found_in_tray};
ghost use Rattle.serial_places.specs.Trays.{seen_by_post, found_by_take, tray_at, trays_posted, trays_taken, empty_trays, full_trays};

use crate::end::blocks_in;
use crate::tray::{self, Tray};
use arena_holds::{Empty, Full};
use chunk_tags::{Block, NoMemory};
use std::alloc::Global;
use std::marker::Model;

/// How many trays there are.
const TRAYS: usize = 65536;

/// All trays, by number. Room for them is reserved at the start; one is written when a post reaches it or one behind it, and
/// is empty before.
#[derive(Drop)]
pub struct Trays {
    reached: Vec<Tray>,
}

impl Model for Trays {
    ghost use Rattle.std.specs.Prelude.{List};
    ghost use Rattle.serial_places.specs.declared.tray.Tray.{Tray};

    ghost Value = { List Tray };

    ghost use Rattle.std.specs.Prelude.{◌≤◌, length, vec_capacity};
    ghost use Rattle.arena_holds.specs.Places.{tray_count};
    ghost use Rattle.serial_places.specs.Trays.{all_trays};

    ghost view = { λ t. all_trays t.reached.items };

    ghost invariant = { λ t.
        (length t.reached.items ≤ tray_count) × (tray_count ≤ vec_capacity t.reached) };
}

/// Writes the trays up to the one with a number that aren't written. Room is reserved, so no memory is asked for.
fn reach(reached: &mut Vec<Tray>, number: usize)
    requires number { number < tray_count }
    requires room { tray_count ≤ vec_capacity reached.old }
    ensures items { reached.new.items ≡ reached.old.items
        ++ replicate (number + 1 - length reached.old.items) Tray.Empty }
    ensures room { tray_count ≤ vec_capacity reached.new }
{
    let missing = (number + 1).saturating_sub(reached.len());
    for _ in 0..missing {
        reached.push(Tray::Empty).unwrap();
    }
}

impl Trays {
    /// Trays without a block, with room for all of them.
    pub fn new(alloc: Global) -> Result<Trays, NoMemory>
        ensures { IfOk result (λ trays. trays ≡ empty_trays) }
    {
        Ok(Trays {
            reached: Vec::with_capacity(alloc, TRAYS)?,
        })
    }

    /// Puts a block into a tray. Where it isn't empty the block comes back.
    pub fn post(&mut self, number: u32, b: Block) -> Result<(), Full>
        requires { number < tray_count }
        ensures told { seen_full result ≡ seen_by_post (tray_at self.old number) }
        ensures trays { self.new ≡ trays_posted number b self.old }
        ensures back { IfErr result (λ full. full.block ≡ b) }
    {
        let number = number as usize;
        reach(&mut self.reached, number);
        tray::post(&mut self.reached[number], b)
    }

    /// Takes the block of a tray, where there is one.
    pub fn take(&mut self, number: u32) -> Result<Block, Empty>
        ensures told { found_in_tray result ≡ found_by_take (tray_at self.old number) }
        ensures trays { self.new ≡ trays_taken number self.old }
    {
        let number = number as usize;
        if number < self.reached.len() {
            return tray::take(&mut self.reached[number]);
        }
        Err(Empty { seen: tray::EMPTY })
    }

    /// The blocks in trays, by the numbers of these.
    pub fn blocks(self) -> Result<Vec<(u32, Block)>, NoMemory>
        ensures { IfOk result (λ blocks. blocks.items ≡ full_trays 0 self) }
    {
        let Trays { reached } = self;
        let alloc = *reached.allocator();
        blocks_in(alloc, reached)
    }
}
