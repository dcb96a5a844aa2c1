//! A tray, in which threads leave blocks for each other.

ghost use Rattle.std.specs.Prelude.{◌≡◌, IfErr};
ghost use Rattle.arena_holds.specs.Returning.{seen_full, found_in_tray};
ghost use Rattle.serial_places.specs.Trays.{seen_by_post, posted_tray, found_by_take, taken_tray};

use arena_holds::{Empty, Full};
use chunk_tags::Block;

/// What is found in an empty tray, a full one, and one whose block was taken.
pub const EMPTY: u64 = 0;

const FULL: u64 = 2;

const TAKEN: u64 = 3;

/// A tray takes one block, which is taken from it once.
#[derive(Debug, Drop)]
pub enum Tray {
    Empty,
    Full(Block),
    Taken,
}

/// Puts a block into a tray. Where it isn't empty the block comes back.
pub fn post(tray: &mut Tray, b: Block) -> Result<(), Full>
    ensures told { seen_full result ≡ seen_by_post tray.old }
    ensures tray { tray.new ≡ posted_tray b tray.old }
    ensures back { IfErr result (λ full. full.block ≡ b) }
{
    match tray {
        Tray::Empty => {
            *tray = Tray::Full(b);
            Ok(())
        }
        Tray::Full(_) => Err(Full {
            block: b,
            seen: FULL,
        }),
        Tray::Taken => Err(Full {
            block: b,
            seen: TAKEN,
        }),
    }
}

/// Takes the block of a tray, where there is one.
pub fn take(tray: &mut Tray) -> Result<Block, Empty>
    ensures told { found_in_tray result ≡ found_by_take tray.old }
    ensures tray { tray.new ≡ taken_tray tray.old }
{
    match std::mem::replace(tray, Tray::Taken) {
        Tray::Full(b) => Ok(b),
        Tray::Empty => {
            *tray = Tray::Empty;
            Err(Empty { seen: EMPTY })
        }
        Tray::Taken => Err(Empty { seen: TAKEN }),
    }
}
