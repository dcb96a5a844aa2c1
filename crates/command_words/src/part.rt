//! The words of a command line, cut into options with their values, and what each of these chooses.

ghost use Rattle.std.specs.Prelude.{◌≡◌, option_map, IfSome, MatchOption, []};
ghost use Rattle.command_words.specs.Parts.{strip_byte, behind_hyphens, texts_of, parts_of, word_alone, option_by, awaits_value, choice_of, number_for, flag_of, CutsOff};
ghost use Rattle.command_words.specs.Views.{given_by, IsFitting};

use crate::number::number;
use crate::setting::Setting;

/// An option as it was given: its name behind `--`, and its value where it has one. What is no option has the empty
/// name.
#[derive(Clone, Copy, Debug, PartialEq, Eq)]
pub struct Part<'a> {
    pub name: &'a str,
    pub value: Option<&'a str>,
}

/// What an option chooses.
#[derive(Clone, Copy, Debug, PartialEq, Eq)]
pub enum Choice {
    /// A setting has this number.
    Sets(Setting, u64),
    /// Each thread runs in a worker of its own.
    Threads,
    /// A summary is written.
    Summary,
}

/// What follows a first hyphen.
fn behind_hyphen(word: &str) -> Option<&str>
    ensures { option_map (λ rest. rest.now) result ≡ strip_byte 45 word.now }
{
    word.strip_prefix('-')
}

/// What follows the two hyphens that an option begins with.
fn option_text(word: &str) -> Option<&str>
    ensures { option_map (λ rest. rest.now) result ≡ behind_hyphens word.now }
{
    behind_hyphen(behind_hyphen(word)?)
}

/// `name=value`, or a name alone.
fn option(text: &str) -> Part<'_>
    ensures { given_by result ≡ option_by text.now }
{
    match text.split_once('=') {
        Some((name, value)) => Part {
            name,
            value: Some(value),
        },
        None => Part {
            name: text,
            value: None,
        },
    }
}

/// A word by itself.
fn alone(word: &str) -> Part<'_>
    ensures { given_by result ≡ word_alone word.now }
{
    match option_text(word) {
        Some(text) => option(text),
        None => Part {
            name: "",
            value: None,
        },
    }
}

impl<'a> Part<'a> {
    /// Whether the next word is the value.
    fn awaits_value(&self) -> bool
        ensures { result ≡ awaits_value (given_by self.now) }
    {
        self.value.is_none() && Setting::named(self.name).is_some()
    }

    /// The option without a value; `None` where there is none of this name.
    fn flag(&self) -> Option<Choice>
        ensures { result ≡ flag_of (given_by self.now) }
    {
        if self.value.is_some() {
            return None;
        }
        match self.name {
            "threads" => Some(Choice::Threads),
            "summary" => Some(Choice::Summary),
            _ => None,
        }
    }

    /// What the option chooses; `None` where there is no such option, or none with this value.
    pub(crate) fn choice(&self) -> Option<Choice>
        ensures exact { result ≡ choice_of (given_by self.now) }
        ensures fitting { IfSome result IsFitting }
    {
        match Setting::named(self.name) {
            Some(setting) => {
                let n = setting_number(setting, self.value)?;
                Some(Choice::Sets(setting, n))
            }
            None => self.flag(),
        }
    }
}

/// The value of a setting: a number of its range.
fn setting_number(setting: Setting, value: Option<&str>) -> Option<u64>
    ensures exact { result ≡ number_for setting (option_map (λ text. text.now) value.entry) }
    ensures fitting { IfSome result (λ n. IsFitting (Choice.Sets setting n)) }
{
    let n = number(value?)?;
    if setting.range().has(n) {
        Some(n)
    } else {
        None
    }
}

/// The first option that words give, and the words behind it; `None` where they give none.
#[tactic(auto, unfolding(crate::specs::Parts::parts_from))]
pub(crate) fn first_part(words: &[String]) -> Option<(Part<'_>, &[String])>
    ensures { MatchOption result (parts_of (texts_of words.now) ≡ [])
        (λ cut. CutsOff (texts_of words.now) (texts_of cut.1.now) (given_by cut.0)) }
{
    let (word, rest) = words.split_first()?;
    if rest.is_empty() && word.as_str() == "--" {
        return None;
    }
    let part = alone(word.as_str());
    if !part.awaits_value() {
        return Some((part, rest));
    }
    match rest.split_first() {
        Some((value, more)) => Some((
            Part {
                name: part.name,
                value: Some(value.as_str()),
            },
            more,
        )),
        None => Some((part, rest)),
    }
}
