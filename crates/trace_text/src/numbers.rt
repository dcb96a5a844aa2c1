//! Numbers of a trace: decimal, without leading zeros, below 2^64.

ghost use Rattle.std.specs.Prelude.{◌≡◌, ◌==◌, ◌≤◌, true, length, take, Some, IfSome};
ghost use Rattle.std.specs.Char.{is_ascii_digit};
ghost use Rattle.std.specs.List.{list_all, position_or_len};
ghost use Rattle.trace_text.specs.Numbers.{value_of, numeral_value};

/// Below it a value has room for one digit more.
const ROOM: u64 = 1_000_000_000_000_000_000;

/// The number that a field stands for; `None` where it stands for none.
#[tactic(auto, using(crate::proofs::Digits::number_cases))]
pub(crate) fn parse_number(field: &[u8]) -> Option<u64>
    ensures { result ≡ numeral_value field.now }
{
    if field.is_empty() || (field.len() > 1 && field[0] == b'0') {
        return None;
    }
    let mut value: u64 = 0;
    for digit in field {
        if !digit.is_ascii_digit() {
            return None;
        }
        value = value
            .checked_mul(10)?
            .checked_add(u64::from(*digit - b'0'))?;
    }
    Some(value)
}

/// What the first digits of a text stand for, and how many they are: as far as the value surely fits, 19 at least.
fn first_digits(text: &[u8]) -> (u64, usize)
    ensures within { result.1 ≤ length text.now }
    ensures digits { list_all is_ascii_digit (take result.1 text.now) ≡ true }
    ensures value { result.0 ≡ value_of (take result.1 text.now) }
{
    let mut value = 0;
    let mut count = 0;
    while count < text.len() && value < ROOM && text[count].is_ascii_digit() {
        value = value * 10 + u64::from(text[count] - b'0');
        count += 1;
    }
    (value, count)
}

/// The number that a text begins with, up to a space or the end, and its length. `None` says nothing: it also stands for a
/// number that is long.
pub(crate) fn number_in_front(text: &[u8]) -> Option<(u64, usize)>
    ensures { IfSome result (λ found. (position_or_len (λ b. b == 32) text.now ≡ found.1) ×
        (numeral_value (take found.1 text.now) ≡ Some found.0)) }
{
    let (value, count) = first_digits(text);
    if count == 0 || (count > 1 && text[0] == b'0') {
        return None;
    }
    if count < text.len() && text[count] != b' ' {
        return None;
    }
    Some((value, count))
}
