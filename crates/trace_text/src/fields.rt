//! The fields of a line: the parts round its spaces.

ghost use Rattle.std.specs.Prelude.{◌≡◌, ◌≢◌, ◌==◌, ◌<◌, ◌∷◌, [], ℕ, List, length, if◌then◌else◌, IfSome, MatchOption, MatchResult};
ghost use Rattle.std.specs.List.{position, slice_split};
ghost use Rattle.trace_text.specs.Grammar.{fields_of, all_filled};
ghost use Rattle.trace_text.specs.Numbers.{TakesNumber};

use crate::fault::BadWhy;
use crate::numbers::{number_in_front, parse_number};
use memchr::memchr;
use std::marker::Model;

/// The place of the first that equals `byte`, in a text where that comes soon.
fn place_of(text: &[u8], byte: u8) -> Option<usize>
    ensures { result ≡ position (λ b. b == byte) text.now }
{
    text.iter().position(|b| *b == byte)
}

/// The place of the first newline.
#[tactic(auto, using(crate::proofs::FirstPlaces::first_place))]
fn newline_in(text: &[u8]) -> Option<usize>
    ensures { result ≡ position (λ b. b == 10) text.now }
{
    memchr(b'\n', text)
}

/// The bytes before the first that equals `byte`, and those behind it.
fn cut(text: &[u8], byte: u8) -> Option<(&[u8], &[u8])>
    ensures { MatchOption result
        (slice_split (λ b. b == byte) text.now ≡ text.now ∷ [])
        (λ parts. slice_split (λ b. b == byte) text.now ≡ parts.0.now ∷ slice_split (λ b. b == byte) parts.1.now) }
{
    let end = place_of(text, byte)?;
    Some((&text[..end], &text[end + 1..]))
}

/// The bytes before the first newline, and those behind it.
#[inline(always)]
pub(crate) fn cut_line(text: &[u8]) -> Option<(&[u8], &[u8])>
    ensures parts { MatchOption result
        (slice_split (λ b. b == 10) text.now ≡ text.now ∷ [])
        (λ parts. slice_split (λ b. b == 10) text.now ≡ parts.0.now ∷ slice_split (λ b. b == 10) parts.1.now) }
    ensures shorter { IfSome result (λ parts. length parts.1.now < length text.now) }
{
    let end = newline_in(text)?;
    Some((&text[..end], &text[end + 1..]))
}

/// Whether no field of a line is empty.
pub(crate) fn are_filled(text: &[u8]) -> bool
    ensures { result ≡ all_filled (fields_of text.now) }
{
    text.split(|b| *b == b' ').all(|field| !field.is_empty())
}

/// The fields of a line that aren't taken yet.
#[derive(Drop)]
pub(crate) struct Fields<'a> {
    /// The text from the next field on.
    rest: &'a [u8],
    /// Whether the last field is taken.
    is_done: bool,
}

impl<'a> Model for Fields<'a> {
    ghost Value = { List (List ℕ) };

    ghost view = { λ f. if f.is_done then [] else fields_of f.rest.now };
}

impl<'a> Fields<'a> {
    pub(crate) fn of(line: &'a [u8]) -> Fields<'a>
        ensures { result ≡ fields_of line.now }
    {
        Fields {
            rest: line,
            is_done: false,
        }
    }

    /// The next field.
    pub(crate) fn take(&mut self) -> Result<&'a [u8], BadWhy>
        ensures { MatchResult result
            (λ field. self.old ≡ field.now ∷ self.new)
            (λ why. (why ≡ BadWhy.Fields) × (self.old ≡ [])) }
    {
        if self.is_done {
            return Err(BadWhy::Fields);
        }
        match cut(self.rest, b' ') {
            Some((field, rest)) => {
                self.rest = rest;
                Ok(field)
            }
            None => {
                self.is_done = true;
                Ok(self.rest)
            }
        }
    }

    /// The number that the next field stands for, if it stands for one. Its digits are passed over once, unless it is long.
    #[inline(always)]
    #[tactic(auto, using(crate::proofs::Cuts::number_cases))]
    pub(crate) fn take_number(&mut self) -> Result<Option<u64>, BadWhy>
        ensures { MatchResult result
            (λ number. TakesNumber self.old self.new number)
            (λ why. (why ≡ BadWhy.Fields) × (self.old ≡ [])) }
    {
        if self.is_done {
            return Err(BadWhy::Fields);
        }
        let Some((number, count)) = number_in_front(self.rest) else {
            return Ok(parse_number(self.take()?));
        };
        if count < self.rest.len() {
            self.rest = &self.rest[count + 1..];
        } else {
            self.is_done = true;
        }
        Ok(Some(number))
    }

    /// Fails where a field is left.
    #[tactic(auto, using(crate::proofs::Cuts::has_field))]
    pub(crate) fn end(self) -> Result<(), BadWhy>
        ensures { MatchResult result
            (λ _. self.entry ≡ [])
            (λ why. (why ≡ BadWhy.Fields) × (self.entry ≢ [])) }
    {
        if self.is_done {
            Ok(())
        } else {
            Err(BadWhy::Fields)
        }
    }
}
