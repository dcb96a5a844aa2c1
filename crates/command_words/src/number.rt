//! Numbers as words have them.

ghost use Rattle.std.specs.Prelude.{◌≡◌};
ghost use Rattle.trace_text.specs.Numbers.{numeral_value};
ghost use Rattle.command_words.specs.Views.{has_plain_front};

/// Whether no plus and no zero stand in front of further digits.
fn has_plain_front(text: &[u8]) -> bool
    ensures { result ≡ has_plain_front text.now }
{
    match text {
        [] => false,
        [digit] => *digit != b'+',
        [first, ..] => *first != b'+' && *first != b'0',
    }
}

/// The number that a text stands for, written as in a trace; `None` where it stands for none.
#[tactic(auto, using(crate::proofs::Numerals::other_front))]
pub(crate) fn number(text: &str) -> Option<u64>
    ensures { result ≡ numeral_value text.now }
{
    if !has_plain_front(text.as_bytes()) {
        return None;
    }
    text.parse::<u64>().ok()
}
