//! Which bins have a chunk.

ghost use Rattle.std.specs.Prelude.{◌≡◌, ℕ, ◌≢◌, ◌<◌, ◌≤◌, ◌+◌, option_map, IfSome, IfNone};
ghost use Rattle.std.specs.Int.{bit_at};
ghost use Rattle.ordinary_bins.specs.BinMaps.{marked, mark_of};

/// A mark for each bin that has a chunk (glibc's `binmap`, in which only sorted chunks set marks, and one stays behind when a
/// bin is emptied; this one is exact).
#[derive(Debug, Drop)]
pub struct BinMap {
    /// The marks of the bins below 64, by the places of bits.
    low: u64,
    /// Those of the others.
    high: u64,
}

/// A word with the bit at a place set or cleared.
fn with_bit(word: u64, place: u8, is_set: bool) -> u64
    requires { place < 64 }
    ensures here { bit_at result place ≡ mark_of is_set }
    ensures others { (i : ℕ) → i < 64 → i ≢ place → bit_at result i ≡ bit_at word i }
{
    let bit = 1u64 << place;
    if is_set { word | bit } else { word & !bit }
}

/// The first place from `from` on whose bit is set.
fn first_bit(word: u64, from: u8) -> Option<u8>
    requires { from < 64 }
    ensures set { IfSome result (λ b. (from ≤ b) × (b < 64) × (bit_at word b ≡ 1)) }
    ensures before { IfSome result (λ b. (i : ℕ) → from ≤ i → i < b → bit_at word i ≡ 0) }
    ensures none { IfNone result ((i : ℕ) → from ≤ i → i < 64 → bit_at word i ≡ 0) }
{
    let rest = word >> from;
    if rest == 0 {
        return None;
    }
    Some(from + rest.trailing_zeros() as u8)
}

impl BinMap {
    /// No bin is marked.
    pub fn new() -> BinMap
        ensures { (bin : ℕ) → marked result bin ≡ 0 }
    {
        BinMap { low: 0, high: 0 }
    }

    /// Marks a bin, or takes its mark away.
    pub fn set(&mut self, bin: u8, is_filled: bool)
        requires { bin < 128 }
        ensures here { marked self.new bin ≡ mark_of is_filled }
        ensures others { (n : ℕ) → n < 128 → n ≢ bin → marked self.new n ≡ marked self.old n }
    {
        if bin < 64 {
            self.low = with_bit(self.low, bin, is_filled);
        } else {
            self.high = with_bit(self.high, bin - 64, is_filled);
        }
    }

    /// The first marked bin from an index on.
    pub fn first_from(&self, bin: u8) -> Option<u8>
        requires { bin < 128 }
        ensures set { IfSome result (λ b. (bin ≤ b) × (b < 128) × (marked self.now b ≡ 1)) }
        ensures before { IfSome result (λ b. (n : ℕ) → bin ≤ n → n < b → marked self.now n ≡ 0) }
        ensures none { IfNone result ((n : ℕ) → bin ≤ n → n < 128 → marked self.now n ≡ 0) }
    {
        if bin >= 64 {
            return above(first_bit(self.high, bin - 64));
        }
        match first_bit(self.low, bin) {
            None => above(first_bit(self.high, 0)),
            Some(found) => Some(found),
        }
    }
}

/// The bin of a place in the second word.
fn above(place: Option<u8>) -> Option<u8>
    requires { IfSome place (λ p. p < 64) }
    ensures { result ≡ option_map (λ p. p + 64) place }
{
    match place {
        None => None,
        Some(place) => Some(place + 64),
    }
}
