//! How far a thread's window for mappings is used up.

ghost use Rattle.std.specs.Prelude.{◌≡◌, ◌+◌, ◌%◌, ◌≤◌, nat_lt};
ghost use Rattle.address_space.specs.Spaces.{map_length};

use std::marker::Model;

/// The bytes of a thread's window for mappings.
pub const MAP_LENGTH: u64 = 1 << 36;

/// The bytes of a window for mappings that were given, from its start on: whole pages, and never more than it has.
#[derive(Drop)]
pub struct Mapped(u64);

impl Model for Mapped {
    ghost use Rattle.std.specs.Prelude.{ℕ, ◌≡◌, ◌%◌, ◌≤◌};

    ghost Value = { ℕ };

    ghost view = { λ m. m.0 };

    ghost invariant = { λ m. (m.0 ≤ 0x1000000000) × (m.0 % 4096 ≡ 0) };
}

impl Mapped {
    /// A window from which nothing was given.
    pub fn start() -> Mapped
        ensures { result ≡ 0 }
    {
        Mapped(0)
    }

    /// The bytes that were given.
    pub fn bytes(&self) -> u64
        ensures value { result ≡ self.now }
        ensures inside { result ≤ map_length }
        ensures pages { result % 4096 ≡ 0 }
    {
        self.0
    }

    /// Whether `len` more bytes would pass the window.
    pub fn passes(&self, len: u64) -> bool
        ensures { result ≡ nat_lt map_length (self.now + len) }
    {
        len > MAP_LENGTH - self.0
    }

    /// Gives `len` more bytes.
    pub fn add(&mut self, len: u64)
        requires inside { self.old + len ≤ map_length }
        requires pages { len % 4096 ≡ 0 }
        ensures { self.new ≡ self.old + len }
    {
        self.0 += len;
    }
}
