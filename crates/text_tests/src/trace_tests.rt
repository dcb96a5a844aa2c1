//! Traces that are read and printed. What is expected of each text comes from an independent implementation of the
//! rules.

use std::alloc::Global;
use std::process::Abort;
use std::test::Fail;
use trace_text::{BadWhy, Call, Line, TraceFault, append_line, print_trace, read_trace};

fn check_fault(rt: &impl Abort, alloc: Global, text: &[u8], line: u64, why: BadWhy) {
    let read = read_trace(alloc, text).err();
    assert_eq!(rt; read, Some(TraceFault::Bad { line, why }), "{text:?}");
}

fn check_whole(rt: &impl Abort, alloc: Global, text: &[u8]) -> Result<(), Fail> {
    let trace = read_trace(alloc, text)?;
    let printed = print_trace(alloc, &trace)?;
    assert_eq!(rt; printed.as_slice(), text);
    Ok(())
}

/// Of these lines behind a header, the last is the first that is faulty.
fn check_last_line(
    rt: &impl Abort,
    alloc: Global,
    header: &[u8],
    why: BadWhy,
    lines: &[u8],
) -> Result<(), Fail> {
    let mut text = Vec::from_slice(alloc, header)?;
    text.extend_from_slice(lines)?;
    text.push(b'\n')?;
    let before = lines.iter().filter(|byte| **byte == b'\n').count() as u64;
    check_fault(rt, alloc, text.as_slice(), before.saturating_add(2), why);
    Ok(())
}

/// The same of each of these texts, in both versions.
fn check_last_lines(
    rt: &impl Abort,
    alloc: Global,
    why: BadWhy,
    texts: &[&[u8]],
) -> Result<(), Fail> {
    for lines in texts {
        check_last_line(rt, alloc, b"ptmtrace 1\n", why, lines)?;
        check_last_line(rt, alloc, b"ptmtrace 2\n", why, lines)?;
    }
    Ok(())
}

#[test]
fn lines_without_newline_are_cut(rt: HostRuntime) {
    let alloc = rt.alloc();
    check_fault(&rt, alloc, b"", 1, BadWhy::Cut);
    check_fault(&rt, alloc, b"ptmtrace 1", 1, BadWhy::Cut);
    check_fault(&rt, alloc, b"ptmtrace 1\n0 m 1 8", 2, BadWhy::Cut);
    check_fault(&rt, alloc, b"ptmtrace 1\n0 m 1 8\n0 f 1", 3, BadWhy::Cut);
}

#[test]
fn other_first_lines_are_no_headers(rt: HostRuntime) {
    const TEXTS: [&[u8]; 16] = [
        b"\n",
        b"ptmtrace 0\n",
        b"ptmtrace 3\n",
        b"ptmtrace 02\n",
        b"ptmtrace 2 \n",
        b"ptmtrace 12\n",
        b"ptmtrace 2\r\n",
        b"ptmtrace \n",
        b"ptmtrace 2x\n",
        b"ptmtrace  1\n",
        b"ptmtrace 1 \n",
        b"ptmtrace 1\r\n",
        b"PTMTRACE 1\n",
        b"ptmtrace 01\n0 m 1 8\n",
        b"0 m 1 8\n",
        b"\nptmtrace 1\n",
    ];
    for text in TEXTS {
        check_fault(&rt, rt.alloc(), text, 1, BadWhy::Header);
    }
}

#[test]
fn fields_stand_between_single_spaces(rt: HostRuntime) -> Result<(), Fail> {
    check_last_lines(
        &rt,
        rt.alloc(),
        BadWhy::Fields,
        &[
            b"",
            b" 0 m 1 8",
            b"0 m 1 8 ",
            b"0  m 1 8",
            b" ",
            b"0",
            b"64",
            b"0 q ",
        ],
    )
}

#[test]
fn commands_have_their_number_of_fields(rt: HostRuntime) -> Result<(), Fail> {
    check_last_lines(
        &rt,
        rt.alloc(),
        BadWhy::Fields,
        &[b"0 m 1", b"0 m 1 8 9", b"1 x 1", b"0 f", b"0 x 1"],
    )
}

#[test]
fn threads_are_0_to_63(rt: HostRuntime) -> Result<(), Fail> {
    check_last_lines(
        &rt,
        rt.alloc(),
        BadWhy::Thread,
        &[
            b"0\tm 1 8",
            b"64 m 1 8",
            b"01 m 1 8",
            b"-0 m 1 8",
            b"+1 m 1 8",
            b"m m 1 8",
            b"18446744073709551616 m 1 8",
        ],
    )
}

#[test]
fn threads_end_once(rt: HostRuntime) -> Result<(), Fail> {
    check_last_lines(
        &rt,
        rt.alloc(),
        BadWhy::Ended,
        &[b"1 x\n1 m 1 8", b"1 x\n1 q", b"1 x\n1 x"],
    )
}

#[test]
fn commands_are_single_letters(rt: HostRuntime) -> Result<(), Fail> {
    check_last_lines(
        &rt,
        rt.alloc(),
        BadWhy::Command,
        &[
            b"0 m\t1 8",
            b"0 q 1 8",
            b"0 M 1 8",
            b"0 mm 1 8",
            b"0 q",
            b"0 \xff 1 8",
        ],
    )
}

#[test]
fn numbers_are_decimal(rt: HostRuntime) -> Result<(), Fail> {
    check_last_lines(
        &rt,
        rt.alloc(),
        BadWhy::Number,
        &[
            b"0 m 1 18446744073709551616",
            b"0 m 1 184467440737095516150",
            b"0 m 1 08",
            b"0 m 01 8",
            b"0 m 1 -0",
            b"0 m 1 +8",
            b"0 m 1 8\r",
            b"0 m 1 0x8",
            b"0 m 1 00",
            b"0 m x 8",
            b"0 c 1 8 y",
            b"0 m 0 y",
            b"0 m 1 8\xc2\xa0",
            b"0 f 18446744073709551616",
        ],
    )
}

#[test]
fn thread_0_goes_on(rt: HostRuntime) -> Result<(), Fail> {
    check_last_lines(&rt, rt.alloc(), BadWhy::MainExit, &[b"0 x"])
}

#[test]
fn names_are_in_the_range_of_their_version(rt: HostRuntime) -> Result<(), Fail> {
    check_last_lines(
        &rt,
        rt.alloc(),
        BadWhy::Name,
        &[
            b"0 m 0 8",
            b"0 f 0",
            b"0 p 0 65536",
            b"0 m 4294967296 8",
            b"0 m 4294967297 8",
            b"0 m 18446744073709551615 8",
        ],
    )
}

#[test]
fn names_of_version_1_are_1_to_65535(rt: HostRuntime) -> Result<(), Fail> {
    const LINES: [&[u8]; 4] = [
        b"0 m 65536 8",
        b"0 m 4294967295 24",
        b"0 p 65536 65536",
        b"0 f 65536",
    ];
    for lines in LINES {
        check_last_line(&rt, rt.alloc(), b"ptmtrace 1\n", BadWhy::Name, lines)?;
    }
    Ok(())
}

#[test]
fn far_names_are_held_as_others_are(rt: HostRuntime) -> Result<(), Fail> {
    const HELD: [&[u8]; 5] = [
        b"0 m 65536 8\n0 m 65536 8",
        b"0 m 4294967295 8\n0 c 4294967295 8 8",
        b"0 t 65536 0\n0 t 65536 0",
        b"0 m 65536 8\n0 f 65536\n0 m 65536 8\n0 a 65536 8 8",
        b"0 m 65536 8\n0 m 65537 8\n0 f 65536\n0 m 65537 8",
    ];
    const NOT_HELD: [&[u8]; 7] = [
        b"0 f 4294967295",
        b"0 m 65536 8\n1 f 65536",
        b"0 m 65537 8\n0 f 1",
        b"0 m 1 8\n0 f 65537",
        b"0 m 65536 8\n0 f 65536\n0 f 65536",
        b"0 m 65536 8\n0 r 65536 0\n0 r 65536 8",
        b"0 m 65536 8\n0 p 65536 0\n0 f 65536",
    ];
    for lines in HELD {
        check_last_line(&rt, rt.alloc(), b"ptmtrace 2\n", BadWhy::Held, lines)?;
    }
    for lines in NOT_HELD {
        check_last_line(&rt, rt.alloc(), b"ptmtrace 2\n", BadWhy::NotHeld, lines)?;
    }
    Ok(())
}

#[test]
fn trays_are_0_to_65535(rt: HostRuntime) -> Result<(), Fail> {
    check_last_lines(
        &rt,
        rt.alloc(),
        BadWhy::Tray,
        &[
            b"0 p 1 65536",
            b"0 m 1 8\n0 p 1 65536",
            b"0 t 1 65536",
            b"0 m 1 8\n0 t 1 65536",
        ],
    )
}

#[test]
fn held_names_are_not_made(rt: HostRuntime) -> Result<(), Fail> {
    check_last_lines(
        &rt,
        rt.alloc(),
        BadWhy::Held,
        &[
            b"0 m 1 8\n0 m 1 8",
            b"0 m 1 8\n0 c 1 8 8",
            b"0 m 1 8\n0 a 1 8 8",
            b"0 m 1 8\n0 t 1 0",
            b"0 m 1 8\n0 r 1 8\n0 m 1 8",
            b"0 t 1 0\n0 t 1 0",
        ],
    )
}

#[test]
fn other_names_are_not_used(rt: HostRuntime) -> Result<(), Fail> {
    check_last_lines(
        &rt,
        rt.alloc(),
        BadWhy::NotHeld,
        &[
            b"0 f 1",
            b"0 r 1 8",
            b"0 p 1 0",
            b"0 m 1 8\n1 f 1",
            b"0 m 1 8\n0 f 1\n0 f 1",
            b"0 m 1 8\n0 r 1 0\n0 f 1",
            b"0 m 1 8\n0 p 1 0\n0 f 1",
            b"1 m 1 8\n1 x\n0 f 1",
            b"0 m 1 8\n0 p 1 0\n0 p 1 0",
        ],
    )
}

#[test]
fn trays_are_used_once_each_way(rt: HostRuntime) -> Result<(), Fail> {
    check_last_lines(
        &rt,
        rt.alloc(),
        BadWhy::TrayTwice,
        &[
            b"0 m 1 8\n0 p 1 0\n0 m 1 8\n0 p 1 0",
            b"0 t 1 0\n0 t 2 0",
            b"0 t 1 0\n1 t 1 0",
        ],
    )
}

#[test]
fn the_first_faulty_line_is_named(rt: HostRuntime) {
    let alloc = rt.alloc();
    check_fault(
        &rt,
        alloc,
        b"ptmtrace 1\n0 q 1\n64 m 1 8\n",
        2,
        BadWhy::Command,
    );
    check_fault(
        &rt,
        alloc,
        b"ptmtrace 1\n0 m 1 8\n64 m 1 8\n0 q 1\n",
        3,
        BadWhy::Thread,
    );
    check_fault(
        &rt,
        alloc,
        b"ptmtrace 1\n0 m 1 8\n\n0 m 1 8\n",
        3,
        BadWhy::Fields,
    );
    check_fault(
        &rt,
        alloc,
        b"ptmtrace 1\n0 m 1 8\n0 m 1 8\n0 f",
        3,
        BadWhy::Held,
    );
}

#[test]
fn whole_traces_are_printed_as_they_were(rt: HostRuntime) -> Result<(), Fail> {
    const TEXTS: [&[u8]; 14] = [
        b"ptmtrace 1\n",
        b"ptmtrace 1\n0 m 1 8\n0 r 1 16\n0 f 1\n",
        b"ptmtrace 1\n1 c 65535 3 5\n1 a 1 64 100\n1 p 1 65535\n0 t 9 65535\n1 x\n",
        b"ptmtrace 1\n63 m 1 18446744073709551615\n",
        b"ptmtrace 1\n0 m 1 8\n0 r 1 0\n0 m 1 8\n",
        b"ptmtrace 1\n0 t 1 0\n",
        b"ptmtrace 1\n0 m 1 0\n1 m 1 0\n",
        b"ptmtrace 1\n1 x\n2 m 1 8\n",
        b"ptmtrace 1\n0 m 1 8\n0 p 1 0\n0 t 1 0\n",
        b"ptmtrace 1\n0 t 1 7\n0 p 1 7\n",
        b"ptmtrace 2\n",
        b"ptmtrace 2\n0 m 1 8\n0 m 65535 8\n0 m 65536 8\n0 m 4294967295 24\n",
        b"ptmtrace 2\n0 m 65536 8\n1 m 65536 8\n0 f 65536\n0 m 65536 8\n1 r 65536 0\n1 c 65536 1 8\n",
        b"ptmtrace 2\n0 m 4294967295 8\n0 p 4294967295 9\n1 t 4294967295 9\n1 x\n",
    ];
    for text in TEXTS {
        check_whole(&rt, rt.alloc(), text)?;
    }
    Ok(())
}

// A trace that is cut at any of its bytes is faulty in the line that is cut, and whole between two lines.
#[test]
fn a_cut_trace_is_faulty_where_it_is_cut(rt: HostRuntime) -> Result<(), Fail> {
    let text =
        b"ptmtrace 1\n0 m 1 8\n1 c 2 3 18446744073709551615\n0 p 1 4\n1 t 1 4\n1 x\n".as_slice();
    let mut line: u64 = 1;
    check_fault(&rt, rt.alloc(), &text[..0], line, BadWhy::Cut);
    for (i, byte) in text.iter().enumerate() {
        if *byte == b'\n' {
            line = line.saturating_add(1);
            check_whole(&rt, rt.alloc(), &text[..i + 1])?;
        } else {
            check_fault(&rt, rt.alloc(), &text[..i + 1], line, BadWhy::Cut);
        }
    }
    Ok(())
}

const EACH_CALL: &[u8] = b"\
ptmtrace 1
0 m 1 8
63 c 2 3 4
0 r 1 5
0 a 65535 64 6
0 f 1
0 p 65535 7
63 t 9 7
63 x
";

const CALLS: [(u8, Call); 8] = [
    (0, Call::Malloc { name: 1, size: 8 }),
    (
        63,
        Call::Calloc {
            name: 2,
            n: 3,
            size: 4,
        },
    ),
    (0, Call::Realloc { name: 1, size: 5 }),
    (
        0,
        Call::Align {
            name: 65535,
            align: 64,
            size: 6,
        },
    ),
    (0, Call::Free { name: 1 }),
    (
        0,
        Call::Post {
            name: 65535,
            tray: 7,
        },
    ),
    (63, Call::Take { name: 9, tray: 7 }),
    (63, Call::Exit),
];

#[test]
fn lines_say_their_calls(rt: HostRuntime) -> Result<(), Fail> {
    let trace = read_trace(rt.alloc(), EACH_CALL)?;
    assert_eq!(rt; (trace.version, trace.lines.len()), (1, CALLS.len()));
    for (i, (thread, call)) in CALLS.iter().enumerate() {
        let line = Line {
            thread: *thread,
            number: i as u64 + 2,
            call: *call,
        };
        assert!(rt; i < trace.lines.len());
        assert_eq!(rt; trace.lines.get(i), line);
    }
    Ok(())
}

#[test]
fn the_header_says_the_version(rt: HostRuntime) -> Result<(), Fail> {
    let trace = read_trace(rt.alloc(), b"ptmtrace 2\n0 m 4294967295 24\n")?;
    let call = Call::Malloc {
        name: 4_294_967_295,
        size: 24,
    };
    let line = Line {
        thread: 0,
        number: 2,
        call,
    };
    assert_eq!(rt; trace.version, 2);
    assert_eq!(rt; trace.lines.len(), 1);
    assert_eq!(rt; trace.lines.get(0), line);
    Ok(())
}

#[test]
fn a_line_is_put_at_the_end(rt: HostRuntime) -> Result<(), Fail> {
    let call = Call::Calloc {
        name: 4_294_967_295,
        n: 0,
        size: 18_446_744_073_709_551_615,
    };
    let line = Line {
        thread: 255,
        number: 0,
        call,
    };
    let mut out = Vec::from_slice(rt.alloc(), b"> ")?;
    append_line(&mut out, &line)?;
    assert_eq!(rt;
        out.as_slice(),
        b"> 255 c 4294967295 0 18446744073709551615".as_slice()
    );
    Ok(())
}

#[test]
fn faults_have_their_names(rt: HostRuntime) {
    assert_eq!(rt; BadWhy::TrayTwice.name(), "TrayTwice");
}
