//! What the words of a command line ask for. A contract sees the words as texts and what they ask for as plain numbers;
//! the one promise is `read_words`' clause `exact`: it answers what `asked_of` of `Asked` says, for every list of words.
#![tactic(auto)]

mod asked;
mod number;
mod part;
mod setting;
mod tuning;
mod words;

pub use asked::{Asked, Generated};
pub use words::read_words;
