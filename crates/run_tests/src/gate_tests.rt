//! A serial run calls no gate.

use crate::tests::{TWO_BLOCKS, TWO_LINES, ample, expect_written};
use address_space::Always;
use std::sync::atomic::{AtomicU64, Ordering};
use std::test::Fail;
use trace_replay::{Gate, SureSource, run};

/// A gate that counts its calls.
#[derive(Drop)]
struct Counting {
    calls: AtomicU64,
}

impl Gate for Counting {
    fn before(&self, _thread: u8, _line: u64) {
        self.calls.fetch_add(1, Ordering::SeqCst);
    }

    fn after(&self, _thread: u8, _line: u64) {
        self.calls.fetch_add(1, Ordering::SeqCst);
    }
}

#[test]
fn a_serial_run_calls_no_gate(rt: HostRuntime) -> Result<(), Fail> {
    let alloc = rt.alloc();
    let gate = Counting {
        calls: AtomicU64::new(0),
    };
    let mut source = SureSource::new(Vec::from_slice(alloc, TWO_LINES)?);
    let mut sink = ample(alloc)?;
    let ports = vec![in alloc; Always; 64]?;
    let exit = run(alloc, &[], &mut source, &mut sink, ports, &gate);
    expect_written(&rt, exit, &sink, TWO_BLOCKS);
    assert_eq!(rt; gate.calls.load(Ordering::SeqCst), 0);
    Ok(())
}
