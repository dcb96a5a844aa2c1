//! A journal gives back what it was given, with ample memory.

use super::*;
use address_space::{Answer, Ask};
use arena_rules::Said;
use chunk_tags::{Addr, Size};
use std::test::Fail;

const WHO: Who = Who {
    thread: 255,
    line: 18_446_744_073_709_551_615,
};

/// An answer of each kind, with asks between others.
const ANSWERS: [Said; 11] = [
    Said::Flag(true),
    Said::Dial(18_446_744_073_709_551_615),
    Said::Asked(
        Ask::Map {
            addr: 4096,
            len: 8192,
        },
        Answer::Refused,
    ),
    Said::Popped(None),
    Said::Popped(Some(Addr(0x7fff_ffff_fff8))),
    Said::Asked(
        Ask::GrowHeap {
            arena: 255,
            heap: 65_535,
            old_len: 1,
            new_len: 2,
        },
        Answer::Granted,
    ),
    Said::Asked(
        Ask::NewHeap {
            arena: 1,
            heap: 2,
            len: 3,
        },
        Answer::Refused,
    ),
    Said::Own(None),
    Said::Own(Some(Addr(8))),
    Said::Room(false),
    Said::Flag(false),
];

const MAPPED: Ended = Ended::Got {
    addr: Addr(4104),
    size: Size(8192),
    mapped: true,
};

/// Holds, and how often they are told all these answers.
const HOLDS: [(Act, Ended, usize); 6] = [
    (Act::Open { bytes: 640 }, Ended::Done, 1),
    (
        Act::Take {
            nb: Size(1_099_511_627_776),
        },
        Ended::Refused,
        2,
    ),
    (
        Act::Give {
            addr: Addr(4096),
            size: Size(32),
        },
        Ended::Short,
        100,
    ),
    (
        Act::Resize {
            addr: Addr(8200),
            size: Size(33_554_432),
            nb: Size(48),
        },
        MAPPED,
        0,
    ),
    (
        Act::Align {
            align: 1_099_511_627_776,
            nb: Size(64),
        },
        MAPPED,
        1,
    ),
    (Act::Take { nb: Size(32) }, Ended::Refused, 3),
];

#[test]
fn entries_are_given_back(rt: HostRuntime) -> Result<(), Fail> {
    let alloc = rt.alloc();
    let mut journal = Journal::new(alloc)?;
    for (act, ended, times) in HOLDS {
        let mut said = journal.begin()?;
        for _ in 0..times {
            said.extend_from_slice(&ANSWERS)?;
        }
        journal.append(WHO, act, said, ended);
    }
    let mut entries = journal.entries();
    for (act, ended, times) in HOLDS {
        let entry = entries.next(alloc)?.ok_or("an entry")?;
        assert_eq!(rt; entry.who, WHO);
        assert_eq!(rt; entry.act, act);
        assert_eq!(rt; entry.ended, ended);
        let mut left = entry.said.as_slice();
        for _ in 0..times {
            let (first, rest) = left.split_at_checked(ANSWERS.len()).ok_or("answers")?;
            assert_eq!(rt; first, ANSWERS.as_slice());
            left = rest;
        }
        assert!(rt; left.is_empty());
    }
    assert!(rt; entries.next(alloc)?.is_none());
    Ok(())
}
