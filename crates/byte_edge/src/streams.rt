//! Where the bytes of a trace come from, and where those of a report go. This project's own.

ghost use Rattle.std.specs.Prelude.{◌<◌, length};
ghost use Rattle.byte_edge.specs.Streams.{Supply, Store, Fetches, Writes, Flushes};

/// What a read gave.
#[derive(Clone, Copy, Debug, PartialEq, Eq)]
pub enum Fetch {
    /// That many bytes, at the front of the room: 1 or more.
    Got(usize),
    /// No byte is left.
    End,
    /// The read failed, and was counted.
    Failed,
}

/// What a write took.
#[derive(Clone, Copy, Debug, PartialEq, Eq)]
pub enum Put {
    /// That many bytes from the front: 1 or more.
    Took(usize),
    /// The write failed, and was counted; it took nothing.
    Failed,
}

/// What a flush did.
#[derive(Clone, Copy, Debug, PartialEq, Eq)]
pub enum Flush {
    Done,
    /// The flush failed, and was counted.
    Failed,
}

/// Where bytes come from. It counts its faults, and may tell the bytes that are left.
pub trait Source {
    ghost supply: { Supply Self };

    /// Reads some of the bytes that are left into the room.
    fn read(&mut self, into: &mut [u8]) -> Fetch
        requires { 0 < length into.old }
        ensures { Fetches supply self.old into.new result self.new };
}

/// Where bytes go to. It counts its faults, and may tell the bytes written and how many of them were flushed.
pub trait Sink {
    ghost store: { Store Self };

    /// Writes some of the bytes, from the front.
    fn write(&mut self, from: &[u8]) -> Put
        requires { 0 < length from.now }
        ensures { Writes store self.old from.now result self.new };

    /// Has all that was written kept.
    fn flush(&mut self) -> Flush
        ensures { Flushes store self.old result self.new };
}
