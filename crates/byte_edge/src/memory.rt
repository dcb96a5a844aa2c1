//! Sources and sinks in memory, for tests and for whoever has the bytes already.

ghost use Rattle.std.specs.Prelude.{◌≡◌, ◌<◌, ◌≤◌, ◌+◌, ◌-◌, ◌^◌, ◌||◌, min, length, [], ◌++◌, take, Some, None, IfOk, drop, if◌then◌else◌};
ghost use Rattle.byte_edge.specs.Streams.{Supply, Store, Fetches, Writes, Flushes};
ghost use Rattle.byte_edge.specs.InMemory.{Plan, new_plan, is_due, called, fetched_of, fetched, taken_count, is_refused, put_of, flush_of};

use crate::streams::{Fetch, Flush, Put, Sink, Source};
use chunk_tags::NoMemory;
use std::alloc::Global;
use std::marker::Model;

/// The calls of an object, counted from 1, those of them that are to fail, and the faults so far.
#[derive(Drop)]
struct Calls {
    fail_at: Vec<u64>,
    count: u64,
    faults: u64,
}

impl Model for Calls {
    ghost use Rattle.byte_edge.specs.InMemory.{Plan};

    ghost Value = { Plan };

    ghost view = { λ c. record { fail_at = c.fail_at.items; calls = c.count; faults = c.faults } };
}

impl Calls {
    fn new(fail_at: Vec<u64>) -> Calls
        ensures { result ≡ new_plan fail_at.items }
    {
        Calls {
            fail_at,
            count: 0,
            faults: 0,
        }
    }

    /// Counts a call, and says whether it fails: it is due to, or it does `anyway`.
    fn fails(&mut self, anyway: bool) -> bool
        ensures answer { result ≡ (is_due self.old || anyway) }
        ensures counted { self.new ≡ called (is_due self.old || anyway) self.old }
        ensures later { self.old.faults ≤ self.new.faults }
    {
        self.count = self.count.saturating_add(1);
        let call = self.count;
        let fails = self.fail_at.contains(&call) || anyway;
        if fails {
            self.faults = self.faults.saturating_add(1);
        }
        fails
    }
}

/// Bytes in memory, whose reads never fail.
#[derive(Drop)]
pub struct SureSource {
    bytes: Vec<u8>,
    at: usize,
}

impl Model for SureSource {
    ghost use Rattle.std.specs.Prelude.{ℕ, List, vec_len, drop, ◌≤◌};

    ghost Value = { List ℕ };

    ghost view = { λ s. drop s.at s.bytes.items };

    ghost invariant = { λ s. s.at ≤ vec_len s.bytes };
}

impl SureSource {
    /// A source of these bytes.
    pub fn new(bytes: Vec<u8>) -> SureSource
        ensures { result ≡ bytes.items }
    {
        SureSource { bytes, at: 0 }
    }
}

impl Source for SureSource {
    ghost supply = { record { left = λ s. Some s; faults = λ _. 0 } };

    fn read(&mut self, into: &mut [u8]) -> Fetch
        requires { 0 < length into.old }
        ensures fetches { Fetches ⟦<SureSource as Source>⟧.supply
            self.old into.new result self.new }
        ensures got { result ≡ fetched_of (length into.old) (length self.old) }
        ensures behind { let n = min (length into.old) (length self.old) in
            drop n into.new ≡ drop n into.old }
    {
        let count = into.len().min(self.bytes.len() - self.at);
        if count == 0 {
            return Fetch::End;
        }
        let rest = &self.bytes[self.at..];
        into[..count].copy_from_slice(&rest[..count]);
        self.at += count;
        Fetch::Got(count)
    }
}

/// Bytes in memory. The reads with the given numbers fail, counted from 1.
#[derive(Drop)]
pub struct MemSource {
    sure: SureSource,
    calls: Calls,
}

impl Model for MemSource {
    ghost use Rattle.byte_edge.specs.InMemory.{Reader};

    ghost Value = { Reader };

    ghost view = { λ s. record { left = s.sure; plan = s.calls } };
}

impl MemSource {
    /// A source of these bytes, whose reads with these numbers fail.
    pub fn new(bytes: Vec<u8>, fail_at: Vec<u64>) -> MemSource
        ensures { result ≡ record { left = bytes.items; plan = new_plan fail_at.items } }
    {
        MemSource {
            sure: SureSource::new(bytes),
            calls: Calls::new(fail_at),
        }
    }
}

impl Source for MemSource {
    ghost supply = { record { left = λ s. Some s.left; faults = λ s. s.plan.faults } };

    fn read(&mut self, into: &mut [u8]) -> Fetch
        requires { 0 < length into.old }
        ensures fetches { Fetches ⟦<MemSource as Source>⟧.supply self.old into.new result self.new }
        ensures got { result ≡ fetched self.old (length into.old) }
        ensures calls { self.new.plan ≡ called (is_due self.old.plan) self.old.plan }
    {
        if self.calls.fails(false) {
            return Fetch::Failed;
        }
        self.sure.read(into)
    }
}

/// Bytes kept in memory, up to a limit. The calls with the given numbers fail, counted from 1, flushes
/// included, and so does a write where the room is used up.
#[derive(Drop)]
pub struct MemSink {
    bytes: Vec<u8>,
    room: usize,
    flushed: usize,
    calls: Calls,
}

impl Model for MemSink {
    ghost use Rattle.std.specs.Prelude.{vec_len, vec_capacity, ◌≤◌};
    ghost use Rattle.byte_edge.specs.InMemory.{Keeper};

    ghost Value = { Keeper };

    ghost view = { λ s. record { bytes = s.bytes.items; flushed = s.flushed; room = s.room; plan = s.calls } };

    ghost invariant = { λ s. (vec_len s.bytes ≤ s.room) × (s.room ≤ vec_capacity s.bytes) };
}

impl MemSink {
    /// A sink for `room` bytes, whose calls with these numbers fail.
    pub fn new(alloc: Global, room: usize, fail_at: Vec<u64>) -> Result<MemSink, NoMemory>
        ensures { IfOk result (λ s. s ≡
            record { bytes = []; flushed = 0; room = room; plan = new_plan fail_at.items }) }
    {
        Ok(MemSink {
            bytes: Vec::with_capacity(alloc, room)?,
            room,
            flushed: 0,
            calls: Calls::new(fail_at),
        })
    }

    /// The bytes written so far.
    pub fn bytes(&self) -> &[u8]
        ensures { result.now ≡ self.now.bytes }
    {
        self.bytes.as_slice()
    }

    /// How many of them stood before the last flush.
    pub fn flushed(&self) -> usize
        ensures { result ≡ self.now.flushed }
    {
        self.flushed
    }
}

impl Sink for MemSink {
    ghost store = { record { written = λ s. Some (record { bytes = s.bytes; flushed = s.flushed }); faults = λ s. s.plan.faults } };

    fn write(&mut self, from: &[u8]) -> Put
        requires { 0 < length from.now }
        ensures writes { Writes ⟦<MemSink as Sink>⟧.store self.old from.now result self.new }
        ensures took { result ≡ put_of self.old from.now }
        ensures calls { self.new.plan ≡ called (is_refused self.old from.now) self.old.plan }
        ensures room { self.new.room ≡ self.old.room }
    {
        let count = from.len().min(self.room - self.bytes.len());
        if self.calls.fails(count == 0) {
            return Put::Failed;
        }
        match self.bytes.extend_from_slice(&from[..count]) {
            Ok(()) => Put::Took(count),
            Err(_) => unreachable!(),
        }
    }

    fn flush(&mut self) -> Flush
        ensures flushes { Flushes ⟦<MemSink as Sink>⟧.store self.old result self.new }
        ensures done { result ≡ flush_of self.old }
        ensures calls { self.new.plan ≡ called (is_due self.old.plan) self.old.plan }
        ensures room { self.new.room ≡ self.old.room }
    {
        if self.calls.fails(false) {
            return Flush::Failed;
        }
        self.flushed = self.bytes.len();
        Flush::Done
    }
}

/// A sink that takes all, keeps nothing but the number of bytes, and never fails.
#[derive(Drop)]
pub struct CountSink {
    count: u64,
}

impl Model for CountSink {
    ghost use Rattle.std.specs.Prelude.{ℕ};

    ghost Value = { ℕ };

    ghost view = { λ s. s.count };
}

impl CountSink {
    /// A sink that took nothing yet.
    pub fn new() -> CountSink
        ensures { result ≡ 0 }
    {
        CountSink { count: 0 }
    }

    /// How many bytes it took, up to 2^64 - 1.
    pub fn count(&self) -> u64
        ensures { result ≡ self.now }
    {
        self.count
    }
}

impl Sink for CountSink {
    ghost store = { record { written = λ _. None; faults = λ _. 0 } };

    fn write(&mut self, from: &[u8]) -> Put
        requires { 0 < length from.now }
        ensures writes { Writes ⟦<CountSink as Sink>⟧.store self.old from.now result self.new }
        ensures all { result ≡ Put.Took (length from.now) }
        ensures counts { self.new ≡ min (self.old + length from.now) (2 ^ 64 - 1) }
    {
        self.count = self.count.saturating_add(from.len() as u64);
        Put::Took(from.len())
    }

    fn flush(&mut self) -> Flush
        ensures flushes { Flushes ⟦<CountSink as Sink>⟧.store self.old result self.new }
        ensures done { (result ≡ Flush.Done) × (self.new ≡ self.old) }
    {
        Flush::Done
    }
}
