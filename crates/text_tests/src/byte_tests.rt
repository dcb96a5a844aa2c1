//! A text that goes in and out again.

use byte_edge::{MemSink, SureSource, Writing, read_input, write_text};
use std::test::Fail;

#[test]
fn a_text_goes_through(rt: HostRuntime) -> Result<(), Fail> {
    let alloc = rt.alloc();
    let mut source = SureSource::new(Vec::from_slice(alloc, b"some bytes")?);
    let bytes = read_input(alloc, &mut source).map_err(|_| "a whole input")?;
    let mut sink = MemSink::new(alloc, 64, Vec::new(alloc))?;
    assert_eq!(rt; write_text(&mut sink, bytes.as_slice()), Writing::Whole);
    assert_eq!(rt;
        (sink.bytes(), sink.flushed()),
        (b"some bytes".as_slice(), 10)
    );
    Ok(())
}
