//! Sizes, bins and pages by number, the starting values, and what mallopt sets.

use chunk_tags::{
    MAX_CACHED, MAX_REQUEST, Mode, PAGE, Refused, Size, Tunables, cache_index, cached_size,
    fast_index, is_small, large_index, page_down, page_up, request_size, small_index,
};
use std::test::Fail;

#[test]
fn sizes_round_up_to_sixteen(rt: HostRuntime) {
    for (request, size) in [
        (0, 32),
        (8, 32),
        (9, 32),
        (24, 32),
        (25, 48),
        (40, 48),
        (41, 64),
        (640, 656),
        (1032, 1040),
        (1033, 1056),
        (131_072, 131_088),
        (MAX_REQUEST - 7, 0x8000_0000_0000_0000),
        (MAX_REQUEST, 0x8000_0000_0000_0010),
    ] {
        assert_eq!(rt; request_size(request), Some(Size(size)), "{request}");
    }
    assert_eq!(rt; request_size(1032), Some(MAX_CACHED));
    assert_eq!(rt; request_size(MAX_REQUEST + 1), None);
    assert_eq!(rt; request_size(u64::MAX), None);
}

#[test]
fn cache_lists_are_sixteen_bytes_apart(rt: HostRuntime) {
    for (size, index) in [(32, 0), (48, 1), (656, 39), (1024, 62), (1040, 63)] {
        assert_eq!(rt; cache_index(Size(size)), index, "{size}");
        assert_eq!(rt; cached_size(index), Size(size), "{index}");
    }
}

#[test]
fn defaults_are_those_of_the_manual(rt: HostRuntime) -> Result<(), Fail> {
    let serial = Tunables::defaults(Mode::Serial);
    assert_eq!(rt;
        (serial.top_pad, serial.records, serial.main_max),
        (131_072, 64, 67_108_864)
    );
    let threads = Tunables::defaults(Mode::Threads);
    assert_eq!(rt;
        (threads.heap_max, threads.heaps, threads.polls),
        (1_048_576, 4, 1_000_000)
    );
    Ok(())
}

#[test]
fn sizes_have_bins_and_pages(rt: HostRuntime) {
    assert!(rt; is_small(Size(1008)) && !is_small(Size(1024)));
    assert_eq!(rt; small_index(Size(1008)), 63);
    assert_eq!(rt; fast_index(Size(128)), 6);
    for (size, index) in [
        (1024, 64),
        (3120, 96),
        (3136, 97),
        (10_736, 111),
        (10_752, 112),
        (45_040, 120),
        (45_056, 120),
        (163_824, 123),
        (163_840, 124),
        (786_416, 126),
        (1 << 40, 126),
    ] {
        assert!(rt; size >= 1024);
        assert_eq!(rt; large_index(Size(size)), index, "{size}");
    }
    assert_eq!(rt;
        (page_up(1), page_up(PAGE), page_down(8191)),
        (PAGE, PAGE, PAGE)
    );
}

/// What mallopt sets, in the order of its parameters.
fn numbers(t: &Tunables) -> [u64; 7] {
    [
        t.max_fast,
        t.trim_threshold,
        t.top_pad,
        t.mmap_threshold,
        t.mmaps_max,
        u64::from(t.arena_test),
        u64::from(t.arena_max),
    ]
}

/// The starting value of the thresholds and of the top pad.
const START: u64 = 131_072;

#[test]
fn mallopt_sets_by_number(rt: HostRuntime) {
    // what is set then, and whether the dynamic threshold is still on
    for (param, value, after, dynamic) in [
        (1, 24, [32, START, START, START, 65_536, 8, 0], true),
        (-1, 131_072, [128, START, START, START, 65_536, 8, 0], false),
        (-2, 0, [128, START, 0, START, 65_536, 8, 0], false),
        (
            -3,
            33_554_432,
            [128, START, START, 33_554_432, 65_536, 8, 0],
            false,
        ),
        (
            -4,
            2_147_483_647,
            [128, START, START, START, 2_147_483_647, 8, 0],
            false,
        ),
        (-7, 1, [128, START, START, START, 65_536, 1, 0], true),
        (-8, 2, [128, START, START, START, 65_536, 8, 2], true),
        (-7, 0, [128, START, START, START, 65_536, 8, 0], true),
        (-5, -1, [128, START, START, START, 65_536, 8, 0], true),
    ] {
        let mut t = Tunables::defaults(Mode::Serial);
        assert_eq!(rt; t.mallopt(param, value), Ok(()), "{param} {value}");
        assert_eq!(rt;
            (numbers(&t), t.dynamic),
            (after, dynamic),
            "{param} {value}"
        );
    }
    for (param, value) in [(1, 161), (-3, 33_554_433), (-4, 2_147_483_648), (-8, -1)] {
        let mut t = Tunables::defaults(Mode::Serial);
        assert_eq!(rt; t.mallopt(param, value), Err(Refused), "{param} {value}");
        assert_eq!(rt; t, Tunables::defaults(Mode::Serial), "{param} {value}");
    }
}
