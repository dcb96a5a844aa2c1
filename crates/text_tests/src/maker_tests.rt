//! A trace that is made. Its lines come from an independent implementation of the rules, as those in `tests/replay/made`
//! and `tests/made.table` do.

ghost use Rattle.std.specs.Prelude.{◌≤◌};

use chunk_tags::NoMemory;
use std::alloc::Global;
use std::process::Abort;
use std::test::Fail;
use trace_maker::generate;
use trace_text::print_trace;

/// The first lines of a seed are these.
fn expect_lines(
    rt: &impl Abort,
    alloc: Global,
    seed: u64,
    n: u32,
    lines: &[u8],
) -> Result<(), NoMemory>
    requires { n ≤ 1000000 }
{
    let is = print_trace(alloc, &generate(alloc, seed, n)?)?;
    assert_eq!(rt; is.as_slice(), lines, "seed {seed}");
    Ok(())
}

/// No lines are the header alone.
#[test]
fn a_seed_gives_its_lines(rt: HostRuntime) -> Result<(), Fail> {
    for (seed, n, lines) in [
        (5, 0, b"ptmtrace 1\n".as_slice()),
        (5, 2, b"ptmtrace 1\n0 m 158 30\n3 m 596 534\n"),
    ] {
        expect_lines(&rt, rt.alloc(), seed, n, lines)?;
    }
    Ok(())
}
