//! Windows and the places of mappings, and budgets.

use address_space::{
    Always, Answer, Ask, Back, Budget, Kernel, MAIN_START, MAP_LENGTH, MAP_START, PIECE_START,
    Space, Windows,
};
use std::process::Abort;
use std::test::Fail;

fn windows() -> Windows {
    Windows {
        main_max: 67_108_864,
        heap_max: 67_108_864,
        heaps: 64,
    }
}

#[test]
fn a_window_is_passed_without_an_ask(rt: HostRuntime) -> Result<(), Fail> {
    let alloc = rt.alloc();
    let mut space = Space::new(Budget::new(1 << 40, Vec::new(alloc)), 0, windows());
    let end = MAIN_START + 67_108_864;
    for (new, answer) in [(end + 1, Answer::Refused), (end, Answer::Granted)] {
        assert_eq!(rt; space.brk(MAIN_START, new), answer);
    }
    space.back(Back::Break {
        old: end,
        new: MAIN_START,
    });
    let mut kernel = space.into_kernel();
    for (len, answer) in [(1 << 40, Answer::Granted), (1, Answer::Refused)] {
        assert_eq!(rt; kernel.ask(Ask::Map { addr: 0, len }), answer);
    }
    Ok(())
}

#[test]
fn a_piece_stays_in_its_window(rt: HostRuntime) {
    let mut space = Space::new(Always, 0, windows());
    for (at, len, answer) in [
        (PIECE_START, 67_108_864, Answer::Granted),
        (PIECE_START + 1, 67_108_864, Answer::Refused),
        (PIECE_START - 1, 67_108_866, Answer::Refused),
        (u64::MAX, u64::MAX, Answer::Refused),
    ] {
        assert_eq!(rt; space.piece(at, len), answer, "{len} bytes at {at:x}");
    }
}

#[test]
fn a_refused_mapping_keeps_its_place(rt: HostRuntime) {
    let mut space = Space::new(Budget::new(12_288, Vec::new(rt.alloc())), 2, windows());
    for (len, place, next) in [
        (8192, Some(0x6020_0000_0000), 0x6020_0000_2000),
        (8192, None, 0x6020_0000_2000),
        (4096, Some(0x6020_0000_2000), 0x6020_0000_3000),
    ] {
        assert_eq!(rt; (space.map(len), space.map_place()), (place, next));
    }
}

#[test]
fn a_mapping_stays_in_its_window(rt: HostRuntime) {
    let mut space = Space::new(Always, 0, windows());
    for (len, place) in [
        (MAP_LENGTH + 4096, None),
        (u64::MAX - 4095, None),
        (MAP_LENGTH, Some(MAP_START)),
        (4096, None),
    ] {
        assert_eq!(rt; space.map(len), place, "{len} bytes");
    }
}

#[test]
fn a_longer_mapping_moves_and_a_shorter_one_stays(rt: HostRuntime) {
    let mut space = Space::new(Budget::new(16_384, Vec::new(rt.alloc())), 1, windows());
    assert_eq!(rt; space.map(8192), Some(0x6010_0000_0000));
    for (addr, old_len, new_len, place) in [
        (0x6010_0000_0000, 8192, 12_288, Some(0x6010_0000_2000)),
        (0x6010_0000_2000, 12_288, 4096, Some(0x6010_0000_2000)),
        (0x6010_0000_2000, 4096, 20_480, None),
    ] {
        assert_eq!(rt;
            (space.remap(addr, old_len, new_len), space.map_place()),
            (place, 0x6010_0000_5000),
            "{new_len} bytes"
        );
    }
    assert_eq!(rt; space.map(12_288), Some(0x6010_0000_5000));
}

#[test]
fn a_full_window_refuses_longer_mappings_alone(rt: HostRuntime) {
    let mut space = Space::new(Always, 0, windows());
    assert_eq!(rt; space.map(MAP_LENGTH), Some(MAP_START));
    for (old_len, new_len, place) in [
        (MAP_LENGTH, 4096, Some(MAP_START)),
        (4096, 8192, None),
        (4096, u64::MAX - 4095, None),
    ] {
        assert_eq!(rt;
            space.remap(MAP_START, old_len, new_len),
            place,
            "{new_len} bytes"
        );
    }
}

/// A port answers these asks so, one after the other.
fn expect_answers<K: Kernel>(rt: &impl Abort, port: &mut K, asks: &[(Ask, Answer)]) {
    for (ask, answer) in asks {
        assert_eq!(rt; port.ask(*ask), *answer, "{ask:?}");
    }
}

/// The second ask is refused by its number, and others for their bytes.
const FIRST_ASKS: [(Ask, Answer); 4] = [
    (Ask::Break { old: 10, new: 70 }, Answer::Granted),
    (Ask::Piece { addr: 0, len: 1 }, Answer::Refused),
    (
        Ask::NewHeap {
            arena: 1,
            heap: 0,
            len: 41,
        },
        Answer::Refused,
    ),
    (
        Ask::GrowHeap {
            arena: 1,
            heap: 0,
            old_len: 8,
            new_len: 48,
        },
        Answer::Granted,
    ),
];

/// More bytes went back than were held.
const LAST_ASKS: [(Ask, Answer); 4] = [
    (Ask::Map { addr: 0, len: 100 }, Answer::Granted),
    (
        Ask::Remap {
            old_addr: 0,
            old_len: 100,
            new_addr: 0,
            new_len: 60,
        },
        Answer::Granted,
    ),
    (Ask::Map { addr: 0, len: 40 }, Answer::Granted),
    (Ask::Map { addr: 0, len: 1 }, Answer::Refused),
];

#[test]
fn a_budget_counts_what_is_held(rt: HostRuntime) -> Result<(), Fail> {
    let mut refuse_at = Vec::new(rt.alloc());
    refuse_at.push(2)?;
    let mut budget = Budget::new(100, refuse_at);
    expect_answers(&rt, &mut budget, &FIRST_ASKS);
    budget.back(Back::Unmap { addr: 0, len: 1000 });
    expect_answers(&rt, &mut budget, &LAST_ASKS);
    Ok(())
}

#[test]
fn a_port_without_a_budget_grants_all(rt: HostRuntime) {
    let all = Ask::Map {
        addr: 0,
        len: u64::MAX,
    };
    assert_eq!(rt; Always.ask(all), Answer::Granted);
}
