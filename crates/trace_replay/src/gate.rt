//! What a run with threads asks ahead of each line and behind it.

/// A worker calls `before` ahead of each line and `after` behind it, with the thread's number and the line's.
/// Both may wait. A serial run calls neither, which no clause says and a test shows.
pub trait Gate: Sync {
    fn before(&self, thread: u8, line: u64);

    fn after(&self, thread: u8, line: u64);
}

/// A gate that waits for nobody.
#[derive(Clone, Copy, Debug, PartialEq, Eq)]
pub struct Open;

impl Gate for Open {
    fn before(&self, _thread: u8, _line: u64) {}

    fn after(&self, _thread: u8, _line: u64) {}
}
