//! The places of a thread over a board: `BoardPlaces` has a pass of the board, and makes of its calls what a thread's calls need.
#![tactic(auto)]

mod places;

pub use places::BoardPlaces;
