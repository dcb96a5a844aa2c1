//! Readers and writers of std as sources and sinks: the edge of the program. As a source or a sink they tell no bytes;
//! what std's reader or writer tells is in clauses of their own.

ghost use Rattle.std.specs.Prelude.{◌≡◌, ◌≤◌, ◌<◌, length, None};
ghost use Rattle.std.specs.Io.KnownBytes.{Keeps};
ghost use Rattle.address_space.specs.Ports.{Rose};
ghost use Rattle.byte_edge.specs.Streams.{Supply, Store, Fetches, Writes, Flushes};
ghost use Rattle.byte_edge.specs.Standard.{ReadsFrom, WritesTo};

use crate::streams::{Fetch, Flush, Put, Sink, Source};
use std::io::{Read, Write};
use std::marker::Model;

/// A reader of std as a source. A read of nothing is its end.
#[derive(Drop)]
pub struct StdSource<R: Read + Drop> {
    reader: R,
    faults: u64,
}

impl<R: Read + Drop> Model for StdSource<R> {
    ghost use Rattle.byte_edge.specs.Standard.{Wrapped};

    ghost Value = { Wrapped R };

    ghost view = { λ s. record { inner = s.reader; faults = s.faults } };
}

impl<R: Read + Drop> StdSource<R> {
    /// A source that reads from this reader.
    pub fn new(reader: R) -> StdSource<R>
        ensures { result ≡ record { inner = reader; faults = 0 } }
    {
        StdSource { reader, faults: 0 }
    }
}

impl<R: Read + Drop> Source for StdSource<R> {
    ghost supply = { record { left = λ _. None; faults = λ s. s.faults } };

    fn read(&mut self, into: &mut [u8]) -> Fetch
        requires { 0 < length into.old }
        ensures fetches { Fetches ⟦<StdSource<R> as Source>⟧.supply
            self.old into.new result self.new }
        ensures reads { ReadsFrom (R.remaining self.old.inner) into.new
            result (R.remaining self.new.inner) }
    {
        match self.reader.read(into) {
            Ok(0) => Fetch::End,
            Ok(count) => Fetch::Got(count),
            Err(_) => {
                self.faults = self.faults.saturating_add(1);
                Fetch::Failed
            }
        }
    }
}

/// A writer of std as a sink. A write that takes nothing is a fault.
#[derive(Drop)]
pub struct StdSink<W: Write + Drop> {
    writer: W,
    faults: u64,
}

impl<W: Write + Drop> Model for StdSink<W> {
    ghost use Rattle.byte_edge.specs.Standard.{Wrapped};

    ghost Value = { Wrapped W };

    ghost view = { λ s. record { inner = s.writer; faults = s.faults } };
}

/// A count of faults with one more.
fn one_more(faults: u64) -> u64
    ensures later { faults ≤ result }
    ensures rose { Rose faults result }
{
    faults.saturating_add(1)
}

impl<W: Write + Drop> StdSink<W> {
    /// A sink that writes to this writer.
    pub fn new(writer: W) -> StdSink<W>
        ensures { result ≡ record { inner = writer; faults = 0 } }
    {
        StdSink { writer, faults: 0 }
    }
}

impl<W: Write + Drop> Sink for StdSink<W> {
    ghost store = { record { written = λ _. None; faults = λ s. s.faults } };

    fn write(&mut self, from: &[u8]) -> Put
        requires { 0 < length from.now }
        ensures writes { Writes ⟦<StdSink<W> as Sink>⟧.store self.old from.now result self.new }
        ensures gave { WritesTo (W.contents self.old.inner) from.now
            result (W.contents self.new.inner) }
    {
        match self.writer.write(from) {
            Ok(count) if count > 0 => Put::Took(count),
            _ => {
                self.faults = one_more(self.faults);
                Put::Failed
            }
        }
    }

    fn flush(&mut self) -> Flush
        ensures flushes { Flushes ⟦<StdSink<W> as Sink>⟧.store self.old result self.new }
        ensures kept { Keeps (W.contents self.old.inner) (W.contents self.new.inner) }
    {
        match self.writer.flush() {
            Ok(()) => Flush::Done,
            Err(_) => {
                self.faults = one_more(self.faults);
                Flush::Failed
            }
        }
    }
}
