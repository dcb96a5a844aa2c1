//! One arena kept in words: its tiles by heads and feet, its bins by links, its regions by numbers. A contract sees the
//! plain arena, and each move of the rules is a call. The one promise: each call is its move of the plain arena (`Moves`
//! of arena_rules), and a ground that memory is refused for stays as it was.
#![tactic(auto)]

mod ground;
mod steps;

pub use ground::Ground;
