//! The words of a report's lines: texts, numbers and addresses.

ghost use Rattle.std.specs.Prelude.{◌≡◌, ◌+◌, ◌-◌, ◌<◌, ◌≤◌, ◌∷◌, ◌++◌, drop, length, codes, OnOk, OnErr, false, decimal};
ghost use Rattle.std.specs.Fmt.{digit_glyph};
ghost use Rattle.stats_text.specs.Words.{hex_digits, address, addresses, block_text, blanks, in_ten_places};
ghost use Rattle.stats_text.specs.Appends.{LacksRoom, KeepsText};

use chunk_tags::{Addr, NoMemory, Size};
use itoa::{Buffer, write_digits};

/// The bytes from a chunk's address to its user's.
const USER_OFFSET: u64 = 16;

/// As many blanks as a number has places in the statistics.
const BLANKS: &[u8] = b"          ";

/// Appends a text.
pub fn push_text(out: &mut Vec<u8>, text: &[u8]) -> Result<(), NoMemory>
    ensures ok { OnOk result (out.new.items ≡ out.old.items ++ text.now) }
    ensures full { OnErr result (LacksRoom out.old text.now) }
    ensures kept { KeepsText out.old out.new }
{
    out.extend_from_slice(text)?;
    Ok(())
}

/// Appends a number.
pub fn push_number(out: &mut Vec<u8>, n: u64) -> Result<(), NoMemory>
    ensures ok { OnOk result (out.new.items ≡ out.old.items ++ decimal n) }
    ensures full { OnErr result (LacksRoom out.old (decimal n)) }
    ensures kept { KeepsText out.old out.new }
{
    let mut buffer = Buffer::new();
    push_text(out, buffer.format(n).as_bytes())
}

/// Appends a word and a number.
pub fn push_numbered(out: &mut Vec<u8>, word: &[u8], n: u64) -> Result<(), NoMemory>
    ensures ok { OnOk result (out.new.items ≡ out.old.items ++ (word.now ++ decimal n)) }
    ensures full { OnErr result (LacksRoom out.old (word.now ++ decimal n)) }
    ensures kept { KeepsText out.old out.new }
{
    push_text(out, word)?;
    push_number(out, n)
}

/// The blanks before a number of `digits` digits.
fn blanks_before(digits: usize) -> &'static [u8]
    ensures { result.now ≡ blanks (10 - digits) }
{
    &BLANKS[digits.min(BLANKS.len())..]
}

/// Appends a number at the right of ten places.
#[tactic(auto, unfolding(crate::specs::Words::in_ten_places))]
pub fn push_right(out: &mut Vec<u8>, n: u64) -> Result<(), NoMemory>
    ensures ok { OnOk result (out.new.items ≡ out.old.items ++ in_ten_places n) }
    ensures full { OnErr result (LacksRoom out.old (in_ten_places n)) }
    ensures kept { KeepsText out.old out.new }
{
    let mut buffer = Buffer::new();
    let digits = buffer.format(n).as_bytes();
    push_text(out, blanks_before(digits.len()))?;
    push_text(out, digits)
}

/// The hexadecimal digit for a value.
fn hex_digit(value: u8) -> u8
    requires { value < 16 }
    ensures { result ≡ digit_glyph false value }
{
    if value < 10 {
        b'0' + value
    } else {
        b'a' + (value - 10)
    }
}

/// Puts a byte before `end`, and gives its place.
fn put_byte(text: &mut [u8], end: usize, byte: u8) -> usize
    requires { (1 ≤ end) × (end ≤ length text.old) }
    ensures start { result + 1 ≡ end }
    ensures written { drop result text.new ≡ byte ∷ drop end text.old }
{
    let start = end - 1;
    text[start] = byte;
    start
}

/// Puts a short text before `end`, and gives the place where it begins.
pub fn put_text(text: &mut [u8], end: usize, word: &[u8]) -> usize
    requires { (length word.now ≤ end) × (end ≤ length text.old) }
    ensures start { result + length word.now ≡ end }
    ensures length { length text.new ≡ length text.old }
    ensures written { drop result text.new ≡ word.now ++ drop end text.old }
{
    let start = end - word.len();
    text[start..end].copy_from_slice(word);
    start
}

/// Puts a number before `end`, and gives the place where it begins.
#[tactic(auto, using(crate::proofs::Digits::decimal_lengths))]
pub fn put_number(text: &mut [u8], end: usize, n: u64) -> usize
    requires { (20 ≤ end) × (end ≤ length text.old) }
    ensures start { (result ≤ end) × (end ≤ result + 20) }
    ensures length { length text.new ≡ length text.old }
    ensures written { drop result text.new ≡ decimal n ++ drop end text.old }
{
    write_digits(n, text, end)
}

/// Puts the last twelve hexadecimal digits of a number before `end`, and gives the place where they begin.
fn put_hex(text: &mut [u8], end: usize, n: u64) -> usize
    requires { (12 ≤ end) × (end ≤ length text.old) }
    ensures start { result + 12 ≡ end }
    ensures written { drop result text.new ≡ hex_digits 12 n ++ drop end text.old }
{
    let mut start = end;
    let mut left = n;
    for done in 0..12_usize {
        start = put_byte(text, start, hex_digit((left % 16) as u8));
        left /= 16;
    }
    start
}

/// Puts the user address of the chunk at `at` before `end`, and gives the place where it begins.
#[tactic(auto, using(crate::proofs::Digits::in_user_bits), unfolding(crate::specs::Words::address))]
fn put_address(text: &mut [u8], end: usize, at: Addr) -> usize
    requires { (14 ≤ end) × (end ≤ length text.old) }
    ensures start { result + 14 ≡ end }
    ensures written { drop result text.new ≡ address at ++ drop end text.old }
{
    let start = put_hex(text, end, at.0.wrapping_add(USER_OFFSET));
    let start = put_byte(text, start, b'x');
    put_byte(text, start, b'0')
}

/// Puts a block, its user address and its size, before `end`, and gives the place where it begins.
#[tactic(auto, using(crate::proofs::Digits::decimal_lengths), unfolding(crate::specs::Words::block_text))]
pub fn put_block(text: &mut [u8], end: usize, addr: Addr, size: Size) -> usize
    requires { (35 ≤ end) × (end ≤ length text.old) }
    ensures start { (result ≤ end) × (end ≤ result + 35) }
    ensures length { length text.new ≡ length text.old }
    ensures written { drop result text.new ≡ block_text addr size ++ drop end text.old }
{
    let start = write_digits(size.0, text, end);
    let start = put_byte(text, start, b' ');
    put_address(text, start, addr)
}

/// Appends the user address of the chunk at `at`.
pub fn push_address(out: &mut Vec<u8>, at: Addr) -> Result<(), NoMemory>
    ensures ok { OnOk result (out.new.items ≡ out.old.items ++ address at) }
    ensures full { OnErr result (LacksRoom out.old (address at)) }
    ensures kept { KeepsText out.old out.new }
{
    let mut text = [0u8; 14];
    put_address(&mut text, 14, at);
    push_text(out, &text)
}

/// Appends a space and the user address of the chunk at `at`.
fn push_spaced(out: &mut Vec<u8>, at: Addr) -> Result<(), NoMemory>
    ensures ok { OnOk result (out.new.items ≡ out.old.items ++ (codes " " ++ address at)) }
    ensures full { OnErr result (LacksRoom out.old (codes " " ++ address at)) }
    ensures kept { KeepsText out.old out.new }
{
    push_text(out, b" ")?;
    push_address(out, at)
}

/// Appends user addresses, each behind a space.
#[tactic(auto, unfolding(crate::specs::Words::addresses))]
pub fn push_addresses(out: &mut Vec<u8>, ats: &[Addr]) -> Result<(), NoMemory>
    ensures ok { OnOk result (out.new.items ≡ out.old.items ++ addresses ats.now) }
    ensures full { OnErr result (LacksRoom out.old (addresses ats.now)) }
    ensures kept { KeepsText out.old out.new }
{
    for at in ats {
        push_spaced(out, *at)?;
    }
    Ok(())
}
