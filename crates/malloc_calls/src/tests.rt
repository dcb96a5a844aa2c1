ghost use Rattle.std.specs.Prelude.{◌≡◌};
ghost use Rattle.chunk_tags.specs.Sizes.{IsChunkSize};
ghost use Rattle.block_names.specs.Blocks.{IsHeld};

use super::*;
use address_space::{Always, Space, Windows};
use chunk_tags::{Addr, Block, Size};
use std::test::Fail;

/// A chunk of main in somebody's hand.
fn chunk(addr: u64, size: u64) -> Block
    requires { IsChunkSize size }
    ensures held { IsHeld result }
{
    Block {
        addr: Addr(addr),
        size: Size(size),
        lead: 0,
        arena: Some(0),
    }
}

#[test]
fn blocks_change_threads(rt: HostRuntime) -> Result<(), Fail> {
    let windows = Windows {
        main_max: 1 << 30,
        heap_max: 1 << 26,
        heaps: 16,
    };
    let mut thread = Thread::new(rt.alloc(), 1, Space::new(Always, 1, windows));
    thread.ready(0)?;
    assert!(rt; thread.has_room(0) && !thread.has_room(1));
    assert!(rt; thread.hand_out(0).is_none());
    if thread.has_room(0) && thread.block(0).is_none() {
        thread.hand_in(0, chunk(0x5555_5555_9290, 32));
    }
    assert_eq!(rt; thread.cached_free(0), CachedFree::NoRoom);
    let block = thread.hand_out(0).ok_or("a block")?;
    assert_eq!(rt; block.addr, Addr(0x5555_5555_9290));
    assert!(rt; thread.block(0).is_none());
    Ok(())
}
