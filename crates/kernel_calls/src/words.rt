//! The words of the command line: those of `ptmreplay`, and `--by-thread`.

ghost use Rattle.std.specs.Prelude.{◌≡◌, is_some};
ghost use Rattle.kernel_calls.specs.Words.{has_equals, is_name_alone, is_no_flag, has_next, flag_place, plain_words};

use crate::behind::BehindName;
use chunk_tags::NoMemory;
use std::alloc::Global;
use std::env;
use std::io::ErrorKind;
use std::rt::Env;
use trace_replay::Exit;

/// The words with the program's name in front.
fn named(alloc: Global, behind: Vec<String>) -> Result<Vec<String>, NoMemory> {
    let mut words = Vec::new(alloc);
    words.push(String::from_str(alloc, "kernel_calls")?)?;
    for word in behind {
        words.push(word)?;
    }
    Ok(words)
}

/// The words of the command line, with the name in front. What the program was called as isn't read: it may have any
/// bytes. Words that are no text are refused.
pub fn all_words<R: Env + AllocGlobal>(rt: &R) -> Result<Vec<String>, Exit> {
    let alloc = rt.alloc();
    match env::args(&(BehindName(rt), alloc)) {
        Ok(args) => {
            let behind = args.collect(alloc).map_err(|_| Exit::NoMemory)?;
            named(alloc, behind).map_err(|_| Exit::NoMemory)
        }
        Err(error) if error.kind() == ErrorKind::InvalidData => Err(Exit::Usage),
        Err(_) => Err(Exit::NoMemory),
    }
}

/// Whether a word has a `=`.
#[tactic(auto, unfolding(crate::specs::Words::has_equals))]
fn has_equals(word: &str) -> bool
    ensures { result ≡ has_equals word.now }
{
    word.split_once('=').is_some()
}

/// Whether a word begins with `--` and isn't `--name=value`.
#[tactic(auto, unfolding(crate::specs::Words::is_name_alone))]
fn is_name_alone(word: &str) -> bool
    ensures { result ≡ is_name_alone word.now }
{
    word.as_bytes().starts_with(b"--") && !has_equals(word)
}

/// Whether a word is any but the options that take no value.
#[tactic(auto, unfolding(crate::specs::Words::is_no_flag))]
fn is_no_flag(word: &str) -> bool
    ensures { result ≡ is_no_flag word.now }
{
    word != "--threads" && word != "--summary"
}

/// Whether the word behind this one belongs to it, as its value or as what stands behind a `--`.
#[tactic(auto, unfolding(crate::specs::Words::has_next))]
fn has_next(word: &str) -> bool
    ensures { result ≡ has_next word.now }
{
    is_name_alone(word) && is_no_flag(word)
}

/// The place of the first `--by-thread` that doesn't belong to the word before it, counted from the word behind the
/// program's name.
#[tactic(auto, unfolding(crate::specs::Words::flag_place))]
fn place_of_flag(words: &[String]) -> Option<usize>
    ensures { result ≡ flag_place words.now }
{
    words.iter().zip(words.iter().skip(1)).position(|(before, word)| word.as_str() == "--by-thread"
        && !has_next(before.as_str()))
}

/// Takes that `--by-thread` out of the words, and says whether there is one.
#[tactic(auto, unfolding(crate::specs::Words::plain_words))]
pub fn take_flag(words: &mut Vec<String>) -> bool
    ensures asked { result ≡ is_some (flag_place words.old.items) }
    ensures plain { words.new.items ≡ plain_words words.old.items }
{
    match place_of_flag(words.as_slice()) {
        Some(place) => {
            let _ = words.remove(place + 1);
            true
        }
        None => false,
    }
}
