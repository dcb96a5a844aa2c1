//! Another arena is opened, with ample memory.

ghost use Rattle.std.specs.Prelude.{◌≡◌, ◌<◌, ◌^◌};
ghost use Rattle.chunk_tags.specs.Tunables.{IsTuned};

use super::*;
use address_space::{Budget, Space, Windows};
use arena_ground::Ground;
use arena_rules::Moves;
use chunk_tags::{Mode, Tunables};
use std::test::Fail;

/// Windows of 128 KiB for two heaps, and a pad.
fn tuned(pad: u64) -> Tunables
    requires { pad < 2 ^ 31 }
    ensures { IsTuned result }
{
    let mut t = Tunables::defaults(Mode::Serial);
    t.top_pad = pad;
    t.heap_max = 131_072;
    t.heaps = 2;
    t
}

#[test]
fn heap_0_is_asked_for_twice_at_most(rt: HostRuntime) -> Result<(), Fail> {
    for (bytes, pad, refusals, len, asks) in [
        (640, 0, 0, 32_768, 1),
        (30_520, 0, 0, 32_768, 1),
        (30_521, 0, 0, 36_864, 1),
        (640, 29_881, 0, 36_864, 1),
        (640, 131_072, 0, 131_072, 1),
        (128_824, 0, 0, 131_072, 1),
        (128_825, 0, 0, 32_768, 2),
        (40_000, 0, 1, 32_768, 2),
        (640, 0, 2, 0, 0),
    ] {
        let alloc = rt.alloc();
        let mut refuse_at = Vec::new(alloc);
        for ask in 0..refusals {
            refuse_at.push(ask + 1)?;
        }
        let t = tuned(pad);
        let windows = Windows {
            main_max: t.main_max,
            heap_max: t.heap_max,
            heaps: t.heaps,
        };
        let mut space = Space::new(Budget::new(1_000_000, refuse_at), 1, windows);
        let who = Who { thread: 1, line: 2 };
        let opened: Option<Arena<Ground>> = Arena::open(alloc, who, 1, bytes, &mut space, &t)?;
        let (system, said) = match opened {
            Some(arena) => {
                let first = arena.journal.entries().next(alloc)?.ok_or("an entry")?;
                (arena.ground.as_ref().system(), first.said.len())
            }
            None => (0, 0),
        };
        assert_eq!(rt; system, len, "for {bytes} bytes with a pad of {pad}");
        assert_eq!(rt; said, asks);
    }
    Ok(())
}
