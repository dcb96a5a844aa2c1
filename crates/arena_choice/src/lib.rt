//! The book of arenas: which exist, which are free, and which one each thread uses. A contract sees a book as a
//! `BookValue`: plain lists of arenas' numbers, main's being 0. The one promise: `choose` is the choice of the rules
//! (`Choices`), each call leaves the book that they say, and every book is sound (`IsSound` of `Books`).
#![tactic(auto)]

mod book;
mod choice;
mod row;

pub use book::Book;
pub use choice::Choice;
