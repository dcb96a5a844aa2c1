//! Marked numbers.

ghost use Rattle.std.specs.Prelude.{◌≡◌, ◌+◌, ◌*◌, ◌^◌, ◌<◌, ◌≢◌, ◌==◌, ℕ, [], true, false, length, OnOk};
ghost use Rattle.std.specs.Int.{bit_at};
ghost use Rattle.trace_text.specs.Marks.{has, bit_of, Inserts, Removes};

use chunk_tags::NoMemory;
use std::alloc::Global;
use std::marker::Model;

/// How many words a table has at least once a number is marked: bits for all trays, or for the names of version 1.
const WORDS: usize = 1024;

/// Marked numbers (this project's own): a table with one bit a number, made when the first is marked.
#[derive(Drop)]
pub(crate) struct Marks {
    words: Vec<u64>,
}

impl Model for Marks {
    ghost use Rattle.std.specs.Prelude.{ℕ, List};

    ghost Value = { List ℕ };

    ghost view = { λ m. m.words.items };
}

/// A word with the bit at a place set or cleared.
fn with_bit(word: u64, place: u32, is_set: bool) -> u64
    requires { place < 64 }
    ensures here { bit_at result place ≡ bit_of is_set }
    ensures others { (i : ℕ) → i < 64 → i ≢ place → bit_at result i ≡ bit_at word i }
{
    let bit = 1u64 << place;
    if is_set { word | bit } else { word & !bit }
}

impl Marks {
    /// No number is marked.
    pub(crate) fn new(alloc: Global) -> Marks
        ensures { result ≡ [] }
    {
        Marks {
            words: Vec::new(alloc),
        }
    }

    pub(crate) fn has(&self, n: u32) -> bool
        ensures { result ≡ has self.now n }
    {
        match self.words.get(n as usize / 64) {
            Some(word) => *word >> (n % 64) & 1 == 1,
            None => false,
        }
    }

    /// Makes a word for the bit of a number.
    #[tactic(auto, using(crate::proofs::MarkTables::filled))]
    fn grow(&mut self, word: usize) -> Result<(), NoMemory>
        requires { word < 2 ^ 32 }
        ensures same { OnOk result ((k : ℕ) → has self.new k ≡ has self.old k) }
        ensures room { OnOk result (word < length self.new) }
    {
        if word >= self.words.len() {
            self.words.resize(word.max(WORDS - 1) + 1, 0)?;
        }
        Ok(())
    }

    pub(crate) fn insert(&mut self, n: u32) -> Result<(), NoMemory>
        ensures { OnOk result (Inserts self.old self.new n) }
    {
        let word = n as usize / 64;
        self.grow(word)?;
        self.words[word] = with_bit(self.words[word], n % 64, true);
        Ok(())
    }

    pub(crate) fn remove(&mut self, n: u32)
        ensures { Removes self.old self.new n }
    {
        let word = n as usize / 64;
        if word < self.words.len() {
            self.words[word] = with_bit(self.words[word], n % 64, false);
        }
    }
}
