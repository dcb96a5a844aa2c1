//! The lines of a trace as their own bytes.

ghost use Rattle.std.specs.Prelude.{◌≡◌, ◌∷◌, ℕ, List};
ghost use Rattle.trace_text.specs.declared.trace.Line.{Line};
ghost use Rattle.trace_text.specs.Spelling.{spelling_of, spelling, texts_of, Allows};

use crate::fields::cut_line;
use std::marker::Model;

/// The texts of the lines that are still to come, without their newlines (this project's own).
#[derive(Drop)]
pub struct Texts<'a> {
    rest: &'a [u8],
}

impl<'a> Model for Texts<'a> {
    ghost use Rattle.std.specs.Prelude.{◌==◌, ℕ, List};
    ghost use Rattle.std.specs.List.{slice_split};

    ghost Value = { List (List ℕ) };

    ghost view = { λ t. slice_split (λ b. b == 10) t.rest.now };
}

impl<'a> Texts<'a> {
    /// The texts of a trace's lines, behind its header.
    pub fn of(bytes: &'a [u8]) -> Texts<'a>
        ensures { (version : ℕ) (lines : List Line) → Allows version lines →
            bytes.now ≡ spelling version lines → result ≡ texts_of lines }
    {
        match cut_line(bytes) {
            Some((_header, rest)) => Texts { rest },
            None => Texts { rest: bytes },
        }
    }

    /// The next line's text.
    pub fn take(&mut self) -> &'a [u8]
        ensures { (line : Line) (lines : List Line) → self.old ≡ texts_of (line ∷ lines) →
            (result.now ≡ spelling_of line) × (self.new ≡ texts_of lines) }
    {
        match cut_line(self.rest) {
            Some((text, rest)) => {
                self.rest = rest;
                text
            }
            None => self.rest,
        }
    }
}
