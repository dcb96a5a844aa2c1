//! What all words ask for.

ghost use Rattle.std.specs.Prelude.{◌≡◌, ◌≤◌, IfSome};
ghost use Rattle.chunk_tags.specs.Tunables.{IsTuned};
ghost use Rattle.command_words.specs.Parts.{texts_of, parts_of};
ghost use Rattle.command_words.specs.Asked.{gives, are_taken, generated_if, draft_of, mode_of, asked_from, asked_of};

use crate::asked::{Asked, Generated};
use crate::part::first_part;
use crate::tuning::{Draft, choose, fresh};
use chunk_tags::Mode;

/// Whether an option with this name is given.
fn gives(words: &[String], name: &str) -> bool
    ensures { result ≡ gives name.now (parts_of (texts_of words.now)) }
{
    let mut left = words;
    while let Some((part, rest)) = first_part(left) {
        if part.name == name {
            return true;
        }
        left = rest;
    }
    false
}

/// Whether each option is one of the command, with a value as it takes it, and none is given twice.
#[tactic(auto, unfolding(crate::specs::Asked::are_taken))]
fn are_taken(words: &[String]) -> bool
    ensures { result ≡ are_taken (parts_of (texts_of words.now)) }
{
    let mut left = words;
    while let Some((part, rest)) = first_part(left) {
        if part.choice().is_none() || gives(rest, part.name) {
            return false;
        }
        left = rest;
    }
    true
}

/// What the options choose.
fn draft(words: &[String], mode: Mode) -> Draft
    ensures exact { result ≡ draft_of mode (parts_of (texts_of words.now)) }
    ensures tuned { IsTuned result.tunables }
    ensures lines { IfSome result.lines (λ n. n ≤ 1000000) }
{
    let mut draft = fresh(mode);
    let mut left = words;
    while let Some((part, rest)) = first_part(left) {
        draft = choose(draft, part.choice());
        left = rest;
    }
    draft
}

/// A seed and a count of lines, where both are given; `None` where only one is.
fn generated(seed: Option<u64>, lines: Option<u64>) -> Option<Option<Generated>>
    requires { IfSome lines (λ n. n ≤ 1000000) }
    ensures exact { result ≡ generated_if seed lines }
    ensures lines { IfSome result (λ made. IfSome made (λ g. g.lines ≤ 1000000)) }
{
    match (seed, lines) {
        (Some(seed), Some(lines)) => Some(Some(Generated { seed, lines })),
        (None, None) => Some(None),
        _ => None,
    }
}

/// What the words behind the program's name ask for; `None` where they aren't taken.
fn read(words: &[String]) -> Option<Asked>
    ensures exact { result ≡ asked_from (parts_of (texts_of words.now)) }
    ensures tuned { IfSome result (λ asked. IsTuned asked.tunables) }
    ensures lines { IfSome result (λ asked. IfSome asked.generated (λ made. made.lines ≤ 1000000)) }
{
    if !are_taken(words) {
        return None;
    }
    let summary = gives(words, "summary");
    let mode = if gives(words, "threads") {
        Mode::Threads
    } else {
        Mode::Serial
    };
    if summary && mode == Mode::Threads {
        return None;
    }
    let draft = draft(words, mode);
    if summary && draft.trim.is_some() {
        return None;
    }
    let generated = generated(draft.seed, draft.lines)?;
    Some(Asked {
        mode,
        tunables: draft.tunables,
        generated,
        summary,
        trim: draft.trim,
    })
}

/// What the words of a command line ask for, the program's name in front; `None` where they aren't taken. No memory is
/// asked for.
pub fn read_words(words: &[String]) -> Option<Asked>
    ensures exact { result ≡ asked_of words.now }
    ensures tuned { IfSome result (λ asked. IsTuned asked.tunables) }

    // A trace that is made has at most a million lines.
    ensures lines { IfSome result (λ asked. IfSome asked.generated (λ made. made.lines ≤ 1000000)) }
{
    match words.split_first() {
        Some((_name, behind)) => read(behind),
        None => read(words),
    }
}
